// Steps on registers modulo an odd prime p, which stand in Montgomery's form beside the forms of their inverses.
#![tactic(auto)]

mod row;

ghost use Rattle.std.specs.Prelude.{◌≡◌, ◌<◌, length};
ghost use Rattle.tape.specs.Inner.Operations.{raw_steps, step_for};
ghost use Rattle.montgomery.specs.Inner.Forms.{form_times};
ghost use Rattle.machine.specs.Machine.{inverse_step};
ghost use Rattle.machine.specs.Inner.Carried.{apply_with, do_all_with, directed_steps};
ghost use Rattle.register_steps.specs.Inner.Ways.{directed_step};

use decoding::operation_of;
use montgomery::Modulus;
use register_forms::register;
use row::{exchange, multiply_register};
use tape::{Opcode, Operation};

// What undoes the step of each opcode.
static OPPOSITES: [Opcode; 3] = [Opcode::Div, Opcode::Mul, Opcode::Swp];

// The steps that some words have in their digits, done from the first to the last, or undone from the last to the first. There is one loop for both, so that
// the compiler has one place where a step is done and puts it there in full. The two rows are slices of any length: a struct of both would take four registers only.
pub fn do_steps(words: &[u32], undone: bool, m: Modulus, values: &mut [u32], inverses: &mut [u32])
    ensures values_after { values.new ≡ do_all_with (form_times m) (directed_steps undone (raw_steps words.now)) values.old inverses.old }
    ensures inverses_after { inverses.new ≡ do_all_with (form_times m) (directed_steps undone (raw_steps words.now)) inverses.old values.old }
{
    for i in 0..words.len() {
        apply_with(values, inverses, m, directed(words, i, undone));
    }
}

// The step that comes after i others.
fn directed(words: &[u32], i: usize, undone: bool) -> Operation
    requires { i < length words.now }
    ensures { step_for result ≡ directed_step undone words.now i }
{
    if undone {
        return inverse_operation(operation_of(words[words.len() - 1 - i]));
    }
    operation_of(words[i])
}

// A step on values beside their inverses, and on the inverses beside the values, so that they remain the inverses. Whether a step
// multiplies or divides only chooses between two factors that are both at hand: a branch would be mispredicted at every other step.
fn apply_with(values: &mut [u32], inverses: &mut [u32], m: Modulus, op: Operation)
    ensures values_after { values.new ≡ apply_with (form_times m) (step_for op) values.old inverses.old }
    ensures inverses_after { inverses.new ≡ apply_with (form_times m) (step_for op) inverses.old values.old }
{
    if op.opcode == Opcode::Swp {
        exchange(values, op.target, op.source);
        return exchange(inverses, op.target, op.source);
    }
    let divides = op.opcode == Opcode::Div;
    let x = register(values, op.source);
    let y = register(inverses, op.source);
    let (factor, inverse_factor) = if divides { (y, x) } else { (x, y) };
    multiply_register(values, op.target, factor, m);
    multiply_register(inverses, op.target, inverse_factor, m)
}

// Undone, mul is div, div is mul, swp is swp: looked up, since the compiler makes branches of a `match`.
fn inverse_operation(op: Operation) -> Operation
    ensures { step_for result ≡ inverse_step (step_for op) }
{
    Operation {
        opcode: OPPOSITES[op.opcode as usize],
        ..op
    }
}
