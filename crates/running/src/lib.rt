// Load, run, a single step, and load and run in one.
#![tactic(auto)]

ghost use Rattle.std.specs.Prelude.{◌≡◌};
ghost use Rattle.tape.specs.Layout.{steps_in};
ghost use Rattle.machine.specs.Machine.{values_of, run};
ghost use Rattle.sequencer.specs.Records.{record_of, state_outcome_of};
ghost use Rattle.sequencer.specs.Services.{load_outcome, run_outcome, forward_outcome};
ghost use Rattle.sequencer.specs.Sessions.{step_outcome};
ghost use Rattle.sequencer.specs.Inner.Runs.{between, Runnable};
ghost use Rattle.sequencer.specs.Inner.Goals.{step_goal};

use accepting::Accepted;
use conditions::{check_base, is_some_bad};
use machine::Registers;
use montgomery::Modulus;
use parts::part;
use refusal::Refusal;
use register_forms::{forms_of, inverses, registers_of};
use register_steps::do_steps;
use sequencer::State;

// No program has so many steps.
const NO_POSITION: u32 = 4294967295;

// The record to start from, (1, a, 1, 1) at position 0, for a base a: check's refusals, 9, and for named programs 11.
pub fn load(tape: &[u32], base: u32) -> Result<State, Refusal>
    ensures { state_outcome_of result ≡ load_outcome tape.now base }
{
    let accepted = accepting::accept_tape(tape)?;
    load_accepted(accepted, base)
}

// The record at position `to`, from where it stands: check's refusals, 9, 10.
pub fn run(tape: &[u32], state: State, to: u32) -> Result<State, Refusal>
    ensures { state_outcome_of result ≡ run_outcome tape.now (record_of state) to }
{
    let accepted = accepting::accept_tape(tape)?;
    run_accepted(accepted, state, to)
}

// The record one step on, or one step back: check's refusals, 9, 10, also for a step past either end.
pub fn step(tape: &[u32], state: State, backward: bool) -> Result<State, Refusal>
    ensures { state_outcome_of result ≡ step_outcome tape.now (record_of state) backward }
{
    let goal = step_goal(state.position, backward);
    run(tape, state, goal)
}

// Load, then run to the step count: load's refusals. Of a named program, register 1 is then the power.
pub fn forward(tape: &[u32], base: u32) -> Result<State, Refusal>
    ensures { state_outcome_of result ≡ forward_outcome tape.now base }
{
    let accepted = accepting::accept_tape(tape)?;
    forward_accepted(accepted, base)
}

// Load on a program that is accepted: 9, 11.
fn load_accepted(accepted: Accepted, base: u32) -> Result<State, Refusal>
    ensures { state_outcome_of result ≡ load_outcome accepted.entry.tape.now base }
{
    check_base(accepted.header, base)?;
    Ok(State {
        registers: Registers {
            c: 1,
            d: base,
            e: 1,
            f: 1,
        },
        position: 0,
    })
}

// Run of a program that is accepted: 9, 10.
fn run_accepted(accepted: Accepted, state: State, to: u32) -> Result<State, Refusal>
    ensures { state_outcome_of result ≡ run_outcome accepted.entry.tape.now (record_of state) to }
{
    let header = accepted.header;
    let registers = state.registers;
    let from = state.position;
    if is_some_bad(header.modulus, registers) {
        return Err(Refusal::Register);
    }
    if header.steps < from {
        return Err(Refusal::Position);
    }
    if header.steps < to {
        return Err(Refusal::Position);
    }
    let reached = run_steps(accepted.steps(), header.modulus, registers, from, to);
    Ok(State {
        registers: reached,
        position: to,
    })
}

// Forward through a program that is accepted: load's refusals, and run has none left.
fn forward_accepted(accepted: Accepted, base: u32) -> Result<State, Refusal>
    ensures { state_outcome_of result ≡ forward_outcome accepted.entry.tape.now base }
{
    let state = load_accepted(accepted, base)?;
    run_accepted(accepted, state, accepted.header.steps)
}

// Where run is told to go for a step: the neighbouring position. Before 0 and behind the largest number there is none, and `NO_POSITION` is
// above every step count.
fn step_goal(position: u32, backward: bool) -> u32
    ensures { result ≡ step_goal backward position }
{
    if backward {
        if 0 < position {
            return position - 1;
        }
        return NO_POSITION;
    }
    if position < NO_POSITION {
        return position + 1;
    }
    NO_POSITION
}

// From one position to another, through the words of a tape's steps: forward if the second is larger, backward if smaller. Each step is
// done by its meaning, and nothing is skipped.
fn run_steps(words: &[u32], p: u32, registers: Registers, from: u32, to: u32) -> Registers
    requires { Runnable words.now p (values_of registers) from to }
    ensures { values_of result ≡ run p (steps_in words.now) from to (values_of registers) }
{
    let m = Modulus::new(p);
    let mut values = forms_of(m, registers);
    let mut register_inverses = inverses(m, &values);
    do_steps(
        between(words, from, to),
        to < from,
        m,
        &mut values,
        &mut register_inverses,
    );
    registers_of(m, &values)
}

// The words of the steps between two positions, of which either may be the larger.
fn between<'a>(words: &'a [u32], i: u32, j: u32) -> &'a [u32]
    ensures { result.now ≡ between words.now i j }
{
    if j < i {
        return part(words, j, i);
    }
    part(words, i, j)
}
