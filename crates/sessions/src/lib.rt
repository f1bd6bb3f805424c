// Sessions: a session carries the tape it was opened on, its registers and its position, goes one step either way, and is previewed.
#![tactic(auto)]

ghost use Rattle.std.specs.Prelude.{◌≡◌};
ghost use Rattle.refusal.specs.Outcomes.{verdict_of, refusal_number, after};
ghost use Rattle.sequencer.specs.Records.{record_of};
ghost use Rattle.sequencer.specs.Sessions.{open_outcome, step_outcome, session_outcome, held_tape, held_record};
ghost use Rattle.sequencer.specs.Previews.{preview_outcome, session_preview, preview_outcome_of};

use machine::Registers;
use refusal::Refusal;
use sequencer::{Preview, State};

// The tape that a session was opened on, and the register record.
#[derive(Clone, Copy)]
pub struct Session<'a> {
    pub tape: &'a [u32],
    pub state: State,
}

// A session with whether what was asked of it was refused.
#[derive(Clone, Copy)]
pub struct SessionAnswer<'a> {
    pub session: Session<'a>,
    pub verdict: Result<(), Refusal>,
}

// A session that was opened and went one step: whether either was refused, and the register record that it holds then.
#[derive(Clone, Copy)]
pub struct SteppedOnce {
    pub opened: Result<(), Refusal>,
    pub stepped: Result<(), Refusal>,
    pub state: State,
}

// A session that was opened and previewed: whether opening was refused, the preview, and the register record that the session holds then.
#[derive(Clone, Copy)]
pub struct PreviewedOnce {
    pub opened: Result<(), Refusal>,
    pub preview: Result<Preview, Refusal>,
    pub state: State,
}

// Opens a session on a tape. It is refused as a run to where the record stands is, and then holds the empty tape, four ones and
// position 0.
pub fn open<'a>(tape: &'a [u32], state: State) -> SessionAnswer<'a>
    ensures tape_value { result.session.tape.now ≡ held_tape (open_outcome tape.now (record_of state)) tape.now }
    ensures state_value { record_of result.session.state ≡ held_record (open_outcome tape.now (record_of state)) }
    ensures number_value { refusal_number (verdict_of result.verdict) ≡ refusal_number (open_outcome tape.now (record_of state)) }
{
    match running::run(tape, state, state.position) {
        Ok(_) => SessionAnswer {
            session: Session { tape, state },
            verdict: Ok(()),
        },
        Err(e) => SessionAnswer {
            session: Session {
                tape: &tape[..0],
                state: State {
                    registers: Registers {
                        c: 1,
                        d: 1,
                        e: 1,
                        f: 1,
                    },
                    position: 0,
                },
            },
            verdict: Err(e),
        },
    }
}

// Goes one step, as run to the neighbouring position does. A refused step hands the session back unchanged.
pub fn step<'a>(session: Session<'a>, backward: bool) -> SessionAnswer<'a>
    ensures tape_value { result.session.tape ≡ session.entry.tape }
    ensures state_value { record_of result.session.state ≡ after (step_outcome session.entry.tape.now (record_of session.entry.state) backward) (record_of session.entry.state) }
    ensures number_value { refusal_number (verdict_of result.verdict) ≡ refusal_number (step_outcome session.entry.tape.now (record_of session.entry.state) backward) }
{
    let stepped = running::step(session.tape, session.state, backward);
    SessionAnswer {
        session: Session {
            tape: session.tape,
            state: stepped.unwrap_or(session.state),
        },
        verdict: stepped.map(|_| ()),
    }
}

// A session is opened, goes one step and is left. No struct that holds a reference goes in or out.
pub fn step_once(tape: &[u32], state: State, backward: bool) -> SteppedOnce
    ensures opened_value { refusal_number (verdict_of result.opened) ≡ refusal_number (open_outcome tape.now (record_of state)) }
    ensures stepped_value { refusal_number (verdict_of result.stepped) ≡ refusal_number (session_outcome tape.now (record_of state) backward) }
    ensures state_value { record_of result.state ≡ after (session_outcome tape.now (record_of state) backward) (held_record (open_outcome tape.now (record_of state))) }
{
    let opened = open(tape, state);
    let stepped = step(opened.session, backward);
    SteppedOnce {
        opened: opened.verdict,
        stepped: stepped.verdict,
        state: stepped.session.state,
    }
}

// What a run to a position makes of the session's registers, and the steps on the way; refused as that run. The session comes as a copy,
// so the caller's own stays.
pub fn preview<'a>(session: Session<'a>, to: u32) -> Result<Preview, Refusal>
    ensures { preview_outcome_of result ≡ preview_outcome session.entry.tape.now (record_of session.entry.state) to }
{
    previewing::preview(session.tape, session.state, to)
}

// A session is opened, previewed and left; the record that it holds then is the one that opening left. No struct that holds a reference
// goes in or out, as in `step_once`.
pub fn preview_once(tape: &[u32], state: State, to: u32) -> PreviewedOnce
    ensures opened_value { refusal_number (verdict_of result.opened) ≡ refusal_number (open_outcome tape.now (record_of state)) }
    ensures preview_value { preview_outcome_of result.preview ≡ session_preview tape.now (record_of state) to }
    ensures state_value { record_of result.state ≡ held_record (open_outcome tape.now (record_of state)) }
{
    let opened = open(tape, state);
    let shown = preview(opened.session, to);
    PreviewedOnce {
        opened: opened.verdict,
        preview: shown,
        state: opened.session.state,
    }
}
