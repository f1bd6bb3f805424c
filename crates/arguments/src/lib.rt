// A command line is read: its verb and its parameters; whether it reads a tape or a script, and whether it answers a tape.
#![tactic(auto)]

ghost use Rattle.std.specs.Prelude.{◌≡◌};
ghost use Rattle.text.specs.Reading.{split_words};
ghost use Rattle.tool.specs.Verbs.{row_named, variant_in, parameter_in};
ghost use Rattle.tool.specs.Replies.{verb_in, reads_tape, reads_script, writes_tape};
ghost use Rattle.tool.specs.Inner.Understood.{Understood, Bare, Countable, Gathered, Placed};

use named::VARIANT_NAMES;
use parsing::{nth_word, parse_number, word_count};
use tool::{Call, CommandLine, LARGEST_32, MAX_PARAMETERS, NAMES, ROWS, Row, Verb};
use verbs::{gives_tape, is_hidden, is_variant, takes_lines, takes_tape};

// What the words ask for, in a script or outside, with its parameters.
pub fn understand(arguments: &[u8], in_script: bool) -> CommandLine
    ensures { Understood in_script (split_words arguments.now) result.call result.values }
{
    let words = word_count(arguments);
    if words == 0 {
        return without_parameters(Call::NoWord);
    }
    let Some(row) = row_named(nth_word(arguments, 0)) else {
        return without_parameters(Call::NoVerb);
    };
    if is_hidden(in_script, Some(row.verb)) {
        return without_parameters(Call::NoVerb);
    }
    let given = words - 1;
    if given < row.least || row.most < given {
        return without_parameters(Call::WrongCount { row, given });
    }
    parameters(arguments, row, given)
}

// Whether the tool reads a tape from standard input for a command line.
#[tactic(auto, unfolding(tool::specs::Replies::reads_tape))]
pub fn reads_tape(arguments: &[u8]) -> bool
    ensures { result ≡ reads_tape (split_words arguments.now) }
{
    takes_tape(verb_in(arguments))
}

// Whether it reads a script.
#[tactic(auto, unfolding(tool::specs::Replies::reads_script))]
pub fn reads_script(arguments: &[u8]) -> bool
    ensures { result ≡ reads_script (split_words arguments.now) }
{
    takes_lines(verb_in(arguments))
}

// Whether its reply, where it is answered, is the bytes of a tape.
#[tactic(auto, unfolding(tool::specs::Replies::writes_tape))]
pub fn writes_tape(arguments: &[u8]) -> bool
    ensures { result ≡ writes_tape (split_words arguments.now) }
{
    gives_tape(verb_in(arguments))
}

// The verb of a command line that is understood.
fn verb_in(arguments: &[u8]) -> Option<Verb>
    ensures { result ≡ verb_in (split_words arguments.now) }
{
    match understand(arguments, false).call {
        Call::Known { row, .. } => Some(row.verb),
        _ => None,
    }
}

fn without_parameters(call: Call) -> CommandLine
    ensures { Bare call result }
{
    CommandLine {
        call,
        values: [0u64; MAX_PARAMETERS],
    }
}

// The numbers of the words after the verb, up to the first that is none.
fn parameters(arguments: &[u8], row: Row, count: usize) -> CommandLine
    requires { Countable row (split_words arguments.now) count }
    ensures { Gathered row (split_words arguments.now) result.call result.values }
{
    let mut values = [0u64; MAX_PARAMETERS];
    for place in 0..count {
        let index = place + 1;
        let Some(n) = parameter(row, place, nth_word(arguments, index)) else {
            return CommandLine {
                call: Call::Unread { row, index },
                values,
            };
        };
        values[place] = n;
    }
    CommandLine {
        call: Call::Known { row, count },
        values,
    }
}

// A parameter: a number, and for build a variant by its name or number.
fn parameter(row: Row, place: usize, word: &[u8]) -> Option<u64>
    ensures { result ≡ parameter_in row place word.now }
{
    if is_variant(Some(row.verb), place) {
        return variant(word);
    }
    parse_number(word, row.largest)
}

// A variant by its name or its number.
fn variant(word: &[u8]) -> Option<u64>
    ensures { result ≡ variant_in word.now }
{
    match place_of(word, &VARIANT_NAMES) {
        Some(variant) => Some(variant as u64),
        None => parse_number(word, LARGEST_32),
    }
}

// The row of a verb by its name.
fn row_named(name: &[u8]) -> Option<Row>
    ensures { result ≡ row_named name.now }
{
    let place = place_of(name, &NAMES)?;
    ROWS.get(place).copied()
}

// The place of the first of some names that is the word.
fn place_of(word: &[u8], names: &[u8]) -> Option<usize>
    ensures { Placed word.now (split_words names.now) result }
{
    (0..word_count(names)).find(|place| nth_word(names, *place) == word)
}
