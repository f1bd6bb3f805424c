// Trace, table and cut: what a tape shows without a run.
#![tactic(auto)]

ghost use Rattle.std.specs.Prelude.{◌≡◌, ◌≤◌, ◌<◌, MatchResult};
ghost use Rattle.refusal.specs.Outcomes.{outcome_by};
ghost use Rattle.refusal.specs.declared.Refusal.TheVariants.{Position};
ghost use Rattle.tape.specs.Layout.{part, step_words_of};
ghost use Rattle.machine.specs.Exponents.{exponents_outcome_of};
ghost use Rattle.tables.specs.Tables.{table_outcome_of};
ghost use Rattle.sequencer.specs.Services.{trace_outcome, cut_outcome, cut_part, bad_cut};
ghost use Rattle.sequencer.specs.Tracing.{NeverOutside, MeansPowers};
ghost use Rattle.sequencer.specs.Tables.{table_outcome, MeansProducts, HasSign};

use accepting::Accepted;
use machine::Exponents;
use parts::{part, step_words};
use refusal::Refusal;
use tables::Table;

// A part of the caller's tape, and whether the cut that gives it is refused.
#[derive(Clone, Copy)]
pub struct CutAnswer<'a> {
    pub part: &'a [u32],
    pub verdict: Result<(), Refusal>,
}

// Each register's whole exponent at a position: check's refusals, 10, 12; no named program gets 12.
pub fn trace(tape: &[u32], position: u32) -> Result<Exponents, Refusal>
    ensures result_value { exponents_outcome_of result ≡ trace_outcome tape.now position }
    ensures never_outside { NeverOutside tape.now (exponents_outcome_of result) }
    ensures means_powers { MeansPowers tape.now position (exponents_outcome_of result) }
{
    let accepted = accepting::accept_tape(tape)?;
    trace_accepted(accepted, position)
}

// The exponent of each start value in each register at a position: check's refusals, 10, 12.
pub fn table(tape: &[u32], position: u32) -> Result<Table, Refusal>
    ensures result_value { table_outcome_of result ≡ table_outcome tape.now position }
    ensures means_products { MeansProducts tape.now position (table_outcome_of result) }
    ensures has_sign { HasSign tape.now position (table_outcome_of result) }
{
    let accepted = accepting::accept_tape(tape)?;
    table_accepted(accepted, position)
}

// The part of the tape with the step words numbered first + 1 to last: check's refusals, 10. A refused cut is an empty part beside its
// refusal.
pub fn cut<'a>(tape: &'a [u32], first: u32, last: u32) -> CutAnswer<'a>
    ensures result_value { outcome_by (λ passed. result.part.now) result.verdict ≡ cut_outcome tape.now first last }
    ensures part_value { result.part.now ≡ cut_part (cut_outcome tape.now first last) }
{
    match words_between(tape, first, last) {
        Ok(part) => CutAnswer {
            part,
            verdict: Ok(()),
        },
        Err(e) => CutAnswer {
            part: &tape[..0],
            verdict: Err(e),
        },
    }
}

// Trace of a program that is accepted: 10, 12.
fn trace_accepted(accepted: Accepted, position: u32) -> Result<Exponents, Refusal>
    ensures { exponents_outcome_of result ≡ trace_outcome accepted.entry.tape.now position }
{
    let words = words_before(accepted, position)?;
    columns::column(words, 1)
}

// The table of a program that is accepted: 10, 12.
fn table_accepted(accepted: Accepted, position: u32) -> Result<Table, Refusal>
    ensures { table_outcome_of result ≡ table_outcome accepted.entry.tape.now position }
{
    let words = words_before(accepted, position)?;
    columns::table(words)
}

// The words of the steps before a position: 10 past the step count.
fn words_before<'a>(accepted: Accepted<'a>, position: u32) -> Result<&'a [u32], Refusal>
    ensures { MatchResult result (λ words. (position ≤ accepted.entry.header.steps) × (words.now ≡ part (step_words_of accepted.entry.tape.now) 0 position)) (λ e. (accepted.entry.header.steps < position) × (e ≡ Position)) }
{
    if accepted.header.steps < position {
        return Err(Refusal::Position);
    }
    Ok(part(accepted.steps(), 0, position))
}

// The step words of a cut, where it isn't refused.
fn words_between<'a>(tape: &'a [u32], first: u32, last: u32) -> Result<&'a [u32], Refusal>
    ensures { outcome_by (λ words. words.now) result ≡ cut_outcome tape.now first last }
{
    let accepted = accepting::accept_tape(tape)?;
    cut_accepted(accepted, first, last)
}

// Cut of a program that is accepted: 10.
fn cut_accepted<'a>(accepted: Accepted<'a>, first: u32, last: u32) -> Result<&'a [u32], Refusal>
    ensures { outcome_by (λ words. words.now) result ≡ cut_outcome accepted.entry.tape.now first last }
{
    if is_bad_cut(accepted.header.steps, first, last) {
        return Err(Refusal::Position);
    }
    Ok(step_words(accepted.tape, first, last))
}

// Refusal 10 in a cut: a position above the step count, or first above last.
fn is_bad_cut(steps: u32, first: u32, last: u32) -> bool
    ensures { result ≡ bad_cut steps first last }
{
    if steps < first {
        return true;
    }
    if steps < last {
        return true;
    }
    last < first
}
