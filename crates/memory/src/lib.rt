// Between the caller's memory and the services' values: an answer is stored and 0 comes back, a refusal stores nothing and its number
// comes back.
#![tactic(auto)]

ghost use Rattle.std.specs.Prelude.{◌≡◌};
ghost use Rattle.refusal.specs.Outcomes.{outcome_of, outcome_by, refusal_number, after};
ghost use Rattle.fibonacci.specs.Services.{bit};
ghost use Rattle.machine.specs.Machine.{values_of};
ghost use Rattle.machine.specs.Exponents.{exponents_of};
ghost use Rattle.machine.specs.Ways.{count_numbers};
ghost use Rattle.tables.specs.Tables.{matrix_of, row_by_row};
ghost use Rattle.sequencer.specs.Records.{row_of, record_in, record_of};
ghost use Rattle.sequencer.specs.Previews.{registers_outcome, counts_outcome, preview_outcome_of};

use machine::{Counts, Exponents, Registers};
use refusal::Refusal;
use sequencer::{Preview, State};
use tables::Table;

// What a service answers, as the caller's memory holds it.
pub trait Stored {
    type Place: Drop;

    ghost seen: { Self → Self.Place };

    fn stored(self) -> Self::Place
        ensures { result ≡ seen self };
}

impl Stored for u64 {
    type Place = u64;

    ghost seen = { λ n. n };

    fn stored(self) -> u64 {
        self
    }
}

impl Stored for u32 {
    type Place = u32;

    ghost seen = { λ n. n };

    fn stored(self) -> u32 {
        self
    }
}

// The registers, then the position.
impl Stored for State {
    type Place = [u32; 5];

    ghost seen = { λ s. row_of (record_of s) };

    fn stored(self) -> [u32; 5] {
        let [c, d, e, f] = self.registers.stored();
        [c, d, e, f, self.position]
    }
}

impl Stored for Registers {
    type Place = [u32; 4];

    ghost seen = { values_of };

    fn stored(self) -> [u32; 4] {
        let Registers { c, d, e, f } = self;
        [c, d, e, f]
    }
}

impl Stored for Counts {
    type Place = [u32; 3];

    ghost seen = { count_numbers };

    fn stored(self) -> [u32; 3] {
        [self.mul, self.div, self.swp]
    }
}

impl Stored for Exponents {
    type Place = [i64; 4];

    ghost seen = { exponents_of };

    fn stored(self) -> [i64; 4] {
        let Exponents { c, d, e, f } = self;
        [c, d, e, f]
    }
}

// Row by row.
impl Stored for Table {
    type Place = [i64; 16];

    ghost seen = { λ t. row_by_row (matrix_of t) };

    fn stored(self) -> [i64; 16] {
        let Table { c, d, e, f } = self;
        [
            c.c, c.d, c.e, c.f, d.c, d.d, d.e, d.f, e.c, e.d, e.e, e.f, f.c, f.d, f.e, f.f,
        ]
    }
}

// The number of a service whose answer is stored nowhere.
pub fn number_of<T: Drop>(answer: Result<T, Refusal>) -> u32
    ensures { result ≡ refusal_number (outcome_of answer) }
{
    match answer {
        Ok(_) => 0,
        Err(e) => u32::from(e),
    }
}

// A truth as a number.
pub fn bit(truth: bool) -> u32
    ensures { result ≡ bit truth }
{
    u32::from(truth)
}

// An answer is stored, and 0 comes back; of a refusal its number comes back, and the place stays as it is.
pub fn store<T: Stored>(answer: Result<T, Refusal>, place: &mut T::Place) -> u32
    ensures value { result ≡ refusal_number (outcome_by T.seen answer) }
    ensures place_after { place.new ≡ after (outcome_by T.seen answer) place.old }
{
    match answer {
        Ok(x) => {
            *place = x.stored();
            0
        }
        Err(e) => u32::from(e),
    }
}

// The same of a preview, whose registers and counts have a place each.
pub fn store_preview(
    answer: Result<Preview, Refusal>,
    registers: &mut [u32; 4],
    counts: &mut [u32; 3],
) -> u32
    ensures value { result ≡ refusal_number (preview_outcome_of answer) }
    ensures registers_after { registers.new ≡ after (registers_outcome (preview_outcome_of answer)) registers.old }
    ensures counts_after { counts.new ≡ after (counts_outcome (preview_outcome_of answer)) counts.old }
{
    store(answer.map(|preview| preview.registers), registers);
    store(answer.map(|preview| preview.counts), counts)
}

// The record that a row of five holds, a function since an impl of From would stand with `State`. It comes by value, because the length of an array behind a reference isn't known to a proof.
pub fn record_in(row: [u32; 5]) -> State
    ensures { record_of result ≡ record_in row }
{
    State {
        registers: Registers {
            c: row[0],
            d: row[1],
            e: row[2],
            f: row[3],
        },
        position: row[4],
    }
}
