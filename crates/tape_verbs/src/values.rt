// The parameters of a verb on a tape.
ghost use Rattle.std.specs.Prelude.{◌≡◌, get_or, take, drop};
ghost use Rattle.sequencer.specs.Records.{record_numbers, record_in, record_of};
ghost use Rattle.tool.specs.Verbs.{max_parameters};

use machine::Registers;
use sequencer::State;
use tool::MAX_PARAMETERS;

// The numbers of a record: four registers and the position.
pub(crate) const RECORD_NUMBERS: usize = 5;

// As many as a verb has at most.
pub(crate) fn first(values: &[u32]) -> &[u32]
    ensures { result.now ≡ take max_parameters values.now }
{
    if values.len() < MAX_PARAMETERS {
        return values;
    }
    &values[..MAX_PARAMETERS]
}

// A parameter, 0 where there is none.
pub(crate) fn parameter(values: &[u32], place: usize) -> u32
    ensures { result ≡ get_or values.now place 0 }
{
    if values.len() <= place {
        return 0;
    }
    values[place]
}

// The first five, which are a record.
pub(crate) fn record(values: &[u32]) -> State
    ensures { record_of result ≡ record_in values.now }
{
    State {
        registers: Registers {
            c: parameter(values, 0),
            d: parameter(values, 1),
            e: parameter(values, 2),
            f: parameter(values, 3),
        },
        position: parameter(values, 4),
    }
}

// Those behind the record.
pub(crate) fn past_record(values: &[u32]) -> &[u32]
    ensures { result.now ≡ drop record_numbers values.now }
{
    if values.len() < RECORD_NUMBERS {
        return &values[..0];
    }
    &values[RECORD_NUMBERS..]
}
