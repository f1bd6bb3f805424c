// The command-line tool: its reply to a command line.
#![tactic(auto)]

ghost use Rattle.std.specs.Prelude.{◌≡◌, take};
ghost use Rattle.text.specs.Reading.{split_words};
ghost use Rattle.tool.specs.Verbs.{largest32, max_parameters, limit_of};
ghost use Rattle.tool.specs.Calls.{asked_by};
ghost use Rattle.tool.specs.Replies.{tape_reply, means, own_in, reply_to, reply, answers};
ghost use Rattle.tool.specs.Texts.{usage, version_line};
ghost use Rattle.tool.specs.Rows.{Told};
ghost use Rattle.tool.specs.Inner.Held.{Usable, held_to};

use arguments::understand;
use complaints::{put_no_verb, put_unread, put_usage, put_wrong_count};
use encoding::{WORD_BYTES, tape_words};
use number_verbs::{build, on_numbers};
use parsing::nth_word;
use putting::put;
use refusal::Refusal;
use tape::MAX_WORDS;
use tape_verbs::on_tape;
use tool::{
    ANSWERED, Call, CommandLine, MAX_PARAMETERS, NOT_UNDERSTOOD, Reply, Row, TapeVerb, Verb,
};
use verbs::takes_tape;
use widths::words;

// The tool's reply to a command line and standard input. The arguments are the words after the tool's name, a zero byte after each. The
// text is put from the buffer's start; in a row of `tool::MAX_TEXT` bytes or more it stands whole.
pub fn reply(arguments: &[u8], input: &[u8], text: &mut [u8]) -> Reply
    ensures { Told text.old (reply (split_words arguments.now) input.now) result text.new }
{
    let mut row = [0u32; MAX_WORDS];
    let count = tape_words(input, &mut row);
    let whole = input.len() % WORD_BYTES == 0;
    let tape = &row[..count];
    reply_on(arguments, false, whole, tape, tape, text)
}

// The reply to a command line, in a script or outside, with the tape at hand and the row of tapes. Where the tape came as bytes,
// `whole` says that they were whole words.
pub fn reply_on(
    arguments: &[u8],
    in_script: bool,
    whole: bool,
    tape: &[u32],
    tapes: &[u32],
    text: &mut [u8],
) -> Reply
    ensures { Told text.old (reply_to (asked_by in_script (split_words arguments.now)) whole tape.now tapes.now) result text.new }
{
    let CommandLine { call, values } = understand(arguments, in_script);
    match call {
        Call::NoWord => complaint(put_usage(text)),
        Call::NoVerb => complaint(put_no_verb(text, nth_word(arguments, 0))),
        Call::WrongCount { row, given } => {
            complaint(put_wrong_count(text, nth_word(arguments, 0), row, given))
        }
        Call::Unread { row, index } => {
            complaint(put_unread(text, nth_word(arguments, index), row, index - 1))
        }
        Call::Known { row, count } => perform(row, whole, &values[..count], tape, tapes, text),
    }
}

fn complaint(length: usize) -> Reply
    ensures { result ≡ record { status = 2; length = length } }
{
    Reply {
        status: NOT_UNDERSTOOD,
        length,
    }
}

// A verb on its parameters.
fn perform(
    row: Row,
    whole: bool,
    values: &[u64],
    tape: &[u32],
    tapes: &[u32],
    text: &mut [u8],
) -> Reply
    requires { Usable (limit_of row.verb) values.now }
    ensures { Told text.old (means row.verb (own_in row whole) values.now tape.now tapes.now) result text.new }
{
    let own = own_in(row, whole);
    match row.verb {
        Verb::Build => build(own, values, text),
        Verb::OnTape(v) => perform_on_tape(v, own, values, tape, tapes, text),
        Verb::OnNumbers(v) => on_numbers(v, own, values, text),
        Verb::Help => help(text),
        Verb::Version => version(text),
        Verb::Script => complaint(put(
            text,
            0,
            b"fibexp: script is a verb of the program fibexp alone\n",
        )),
        Verb::InScript(_) => complaint(put_usage(text)),
    }
}

// A verb on a tape, whose parameters have 32 bits.
fn perform_on_tape(
    verb: TapeVerb,
    own: u32,
    values: &[u64],
    tape: &[u32],
    tapes: &[u32],
    text: &mut [u8],
) -> Reply
    ensures { Told text.old (tape_reply verb own (take max_parameters (held_to largest32 values.now)) tape.now tapes.now) result text.new }
{
    let mut row = [0u32; MAX_PARAMETERS];
    let count = words(values, &mut row, 0);
    on_tape(verb, own, &row[..count], tape, tapes, text)
}

fn help(text: &mut [u8]) -> Reply
    ensures { Told text.old (answers usage) result text.new }
{
    Reply {
        status: ANSWERED,
        length: put_usage(text),
    }
}

fn version(text: &mut [u8]) -> Reply
    ensures { Told text.old (answers version_line) result text.new }
{
    Reply {
        status: ANSWERED,
        length: put(text, 0, b"fibexp 3.0.0\n"),
    }
}

// The refusal whose reason is the verb's own: 6 where a tape was to come and its bytes weren't whole words.
fn own_in(row: Row, whole: bool) -> u32
    ensures { result ≡ own_in row whole }
{
    if takes_tape(Some(row.verb)) && !whole {
        return u32::from(Refusal::Length);
    }
    row.own
}
