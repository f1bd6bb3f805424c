// The preview: what a run makes of the registers, on a copy, and the mul, div and swp steps on its way.
#![tactic(auto)]

ghost use Rattle.std.specs.Prelude.{◌≡◌, ◌≤◌, length};
ghost use Rattle.tape.specs.Layout.{max_steps, steps_in};
ghost use Rattle.tape.specs.Inner.Operations.{raw_steps};
ghost use Rattle.machine.specs.Ways.{way, count_where, counts_of, count_numbers};
ghost use Rattle.machine.specs.Inner.Kinds.{is_kind};
ghost use Rattle.sequencer.specs.Records.{record_of};
ghost use Rattle.sequencer.specs.Previews.{preview_outcome, preview_outcome_of};
ghost use Rattle.sequencer.specs.Inner.Runs.{Inside};

use decoding::operation_of;
use machine::Counts;
use parts::{part, steps};
use refusal::Refusal;
use sequencer::{Preview, State};
use tape::Opcode;

// The registers at position `to`, from where the record stands, and the steps on the way: run's refusals. The record comes as a copy, so
// the caller's own stays.
pub fn preview(tape: &[u32], state: State, to: u32) -> Result<Preview, Refusal>
    ensures { preview_outcome_of result ≡ preview_outcome tape.now (record_of state) to }
{
    let reached = running::run(tape, state, to)?;
    Ok(Preview {
        registers: reached.registers,
        counts: count_way(steps(tape), state.position, to),
    })
}

// The steps that are done on the way from one position to another, by the words of a tape's steps. On the way back they are undone, and an
// undone mul is a div, an undone div a mul.
fn count_way(words: &[u32], from: u32, to: u32) -> Counts
    requires inside { Inside words.now from to }
    requires words_len_bound { length words.now ≤ max_steps }
    ensures { count_numbers result ≡ counts_of (way (steps_in words.now) from to) }
{
    if from <= to {
        return count_steps(part(words, from, to));
    }
    let undone = count_steps(part(words, to, from));
    Counts {
        mul: undone.div,
        div: undone.mul,
        swp: undone.swp,
    }
}

// How many of the steps that some words have in their digits are mul, div and swp.
fn count_steps(words: &[u32]) -> Counts
    requires { length words.now ≤ max_steps }
    ensures { count_numbers result ≡ counts_of (raw_steps words.now) }
{
    let mul = count_kind(words, Opcode::Mul);
    let div = count_kind(words, Opcode::Div);
    Counts {
        mul,
        div,
        swp: words.len() as u32 - mul - div,
    }
}

// How many of them have this opcode.
fn count_kind(words: &[u32], opcode: Opcode) -> u32
    requires { length words.now ≤ max_steps }
    ensures { result ≡ count_where (is_kind opcode) (raw_steps words.now) }
{
    let mut n: u32 = 0;
    for i in 0..words.len() {
        if operation_of(words[i]).opcode == opcode {
            n += 1;
        }
    }
    n
}
