// The verbs on a tape: what is replied to each.
#![tactic(auto)]

mod values;

ghost use Rattle.std.specs.Prelude.{◌+◌, ◌/◌, ◌≤◌, ◌≡◌, length, get_or, take};
ghost use Rattle.std.proofs.lemmas.List.Edits.{sets};
ghost use Rattle.refusal.specs.Rows.{Wrote};
ghost use Rattle.text.specs.Text.{number_line, numbers_line};
ghost use Rattle.tape.specs.Layout.{steps_of};
ghost use Rattle.program.specs.Services.{accept_outcome, check_outcome};
ghost use Rattle.sequencer.specs.Records.{record_numbers, row_of, record_in, record_of};
ghost use Rattle.sequencer.specs.Services.{run_outcome, forward_outcome, cut_outcome};
ghost use Rattle.sequencer.specs.Sessions.{step_outcome, is_backward};
ghost use Rattle.sequencer.specs.Previews.{preview_outcome};
ghost use Rattle.sequencer.specs.Lists.{requests_of};
ghost use Rattle.listing.specs.Listing.{lines_for};
ghost use Rattle.tool.specs.Verbs.{max_parameters};
ghost use Rattle.tool.specs.Texts.{record_line, preview_lines, power_lines};
ghost use Rattle.tool.specs.Replies.{answers, printed, raised_all, runs_told, played, tape_reply};
ghost use Rattle.tool.specs.Rows.{Told};

use lines::numbers_line;
use lister::list_tape;
use printing::{Power, print, refuse, show};
use putting::{Buffer, put};
use sequencer::State;
use sessions::{preview_once, step_once};
use tool::{ANSWERED, MAX_PARAMETERS, Reply, TapeVerb};
use values::{RECORD_NUMBERS, first, parameter, past_record, record};

// The words of a request in a list of runs.
const REQUEST_WORDS: usize = 4;

// A verb on the tape at hand; a list of runs is on the row of tapes. No verb has more parameters than `tool::MAX_PARAMETERS`: what
// stands behind that many isn't looked at.
pub fn on_tape(
    verb: TapeVerb,
    own: u32,
    values: &[u32],
    tape: &[u32],
    tapes: &[u32],
    text: &mut [u8],
) -> Reply
    ensures { Told text.old (tape_reply verb own (take max_parameters values.now) tape.now tapes.now) result text.new }
{
    let given = first(values);
    match verb {
        TapeVerb::Check => check(own, tape, text),
        TapeVerb::Listing => list(tape, text),
        TapeVerb::Load => print(text, own, running::load(tape, parameter(given, 0))),
        TapeVerb::Run => run(own, given, tape, text),
        TapeVerb::SingleStep => step(own, given, tape, text),
        TapeVerb::Preview => preview(own, given, tape, text),
        TapeVerb::Power => power(own, tape, parameter(given, 0), text),
        TapeVerb::Raise => raise(own, given, tape, text),
        TapeVerb::Trace => print(text, own, inspecting::trace(tape, parameter(given, 0))),
        TapeVerb::Table => print(text, own, inspecting::table(tape, parameter(given, 0))),
        TapeVerb::Cut => cut(own, tape, parameter(given, 0), parameter(given, 1), text),
        TapeVerb::Play => play(given, tapes, text),
    }
}

// Check, which answers 0 where the tape is accepted.
fn check(own: u32, tape: &[u32], text: &mut [u8]) -> Reply
    ensures { Told text.old (printed own (check_outcome tape.now) number_line) result text.new }
{
    match accepting::check(tape) {
        Ok(()) => show(text, 0u64),
        Err(e) => refuse(text, own, u32::from(e)),
    }
}

// The listing, which of a refused tape is the line of its refusal.
fn list(tape: &[u32], text: &mut [u8]) -> Reply
    ensures { Told text.old (answers (lines_for (accept_outcome tape.now) (steps_of tape.now))) result text.new }
{
    let listed = list_tape(tape, text);
    Reply {
        status: ANSWERED,
        length: listed.written,
    }
}

// Run, its record the first five parameters.
fn run(own: u32, values: &[u32], tape: &[u32], text: &mut [u8]) -> Reply
    ensures { Told text.old (printed own (run_outcome tape.now (record_in values.now) (get_or values.now 5 0)) record_line) result text.new }
{
    let answer = running::run(tape, record(values), parameter(values, 5));
    print(text, own, answer)
}

// A single step, of a session that is opened for it: so a program uses sessions, for the price of checking the tape twice.
fn step(own: u32, values: &[u32], tape: &[u32], text: &mut [u8]) -> Reply
    ensures { Told text.old (printed own (step_outcome tape.now (record_in values.now) (is_backward (get_or values.now 5 0))) record_line) result text.new }
{
    let once = step_once(tape, record(values), parameter(values, 5) != 0);
    if let Err(e) = once.opened {
        return refuse(text, own, u32::from(e));
    }
    if let Err(e) = once.stepped {
        return refuse(text, own, u32::from(e));
    }
    let state = once.state;
    show(text, state)
}

// A preview, of a session that is opened for it, as `step` is.
fn preview(own: u32, values: &[u32], tape: &[u32], text: &mut [u8]) -> Reply
    ensures { Told text.old (printed own (preview_outcome tape.now (record_in values.now) (get_or values.now 5 0)) preview_lines) result text.new }
{
    let previewed = preview_once(tape, record(values), parameter(values, 5));
    if let Err(e) = previewed.opened {
        return refuse(text, own, u32::from(e));
    }
    let shown = previewed.preview;
    print(text, own, shown)
}

// Power, which shows register 1 before the record.
fn power(own: u32, tape: &[u32], base: u32, text: &mut [u8]) -> Reply
    ensures { Told text.old (printed own (forward_outcome tape.now base) power_lines) result text.new }
{
    let answer = running::forward(tape, base);
    print(text, own, answer.map(|state| Power { state }))
}

// Raise, its bases the parameters, which are copied since they are replaced.
fn raise(own: u32, values: &[u32], tape: &[u32], text: &mut [u8]) -> Reply
    requires { length values.now ≤ max_parameters }
    ensures { Told text.old (raised_all own values.now tape.now) result text.new }
{
    let mut row = [0u32; MAX_PARAMETERS];
    let count = put(&mut row, 0, values);
    raise_row(own, &mut row[..count], tape, text)
}

// The row of bases after they are raised.
fn raise_row(own: u32, bases: &mut [u32], tape: &[u32], text: &mut [u8]) -> Reply
    requires { length bases.old ≤ max_parameters }
    ensures { Told text.old (raised_all own bases.old tape.now) result text.new }
{
    match raising::raise(tape, bases) {
        Err(e) => refuse(text, own, u32::from(e)),
        Ok(_) => {
            let mut line = Buffer::new(text);
            numbers_line(&mut line, bases);
            Reply {
                status: ANSWERED,
                length: line.next,
            }
        }
    }
}

// The step words of a part of the tape.
fn cut(own: u32, tape: &[u32], first: u32, last: u32, text: &mut [u8]) -> Reply
    ensures { Told text.old (printed own (cut_outcome tape.now first last) numbers_line) result text.new }
{
    let answer = inspecting::cut(tape, first, last);
    if let Err(e) = answer.verdict {
        return refuse(text, own, u32::from(e));
    }
    let mut line = Buffer::new(text);
    numbers_line(&mut line, answer.part);
    Reply {
        status: ANSWERED,
        length: line.next,
    }
}

// A list of runs: a record, then the requests. Told are the record at its end, then each run's number.
fn play(values: &[u32], tapes: &[u32], text: &mut [u8]) -> Reply
    requires { length values.now ≤ max_parameters }
    ensures { Told text.old (played values.now tapes.now) result text.new }
{
    let requests = past_record(values);
    let mut told = [0u32; MAX_PARAMETERS];
    let length = runs(tapes, requests, record(values), &mut told);
    let mut line = Buffer::new(text);
    numbers_line(&mut line, &told[..length]);
    Reply {
        status: ANSWERED,
        length: line.next,
    }
}

// The record after a list of runs, then each run's number, and how many these are.
fn runs(tapes: &[u32], requests: &[u32], state: State, told: &mut [u32]) -> usize
    requires { record_numbers + length requests.now / 4 ≤ length told.old }
    ensures wrote { Wrote told.old 0 (runs_told (requests_of tapes.now requests.now) (record_of state)) result told.new }
    ensures value { result ≡ record_numbers + length requests.now / 4 }
{
    let after = playing::play(tapes, requests, state, &mut told[RECORD_NUMBERS..]);
    put_record(after, told);
    RECORD_NUMBERS + requests.len() / REQUEST_WORDS
}

// The record in the first five places.
fn put_record(state: State, told: &mut [u32])
    requires { record_numbers ≤ length told.old }
    ensures { told.new ≡ sets told.old 0 (row_of (record_of state)) }
{
    let registers = state.registers;
    told[0] = registers.c;
    told[1] = registers.d;
    told[2] = registers.e;
    told[3] = registers.f;
    told[4] = state.position;
}
