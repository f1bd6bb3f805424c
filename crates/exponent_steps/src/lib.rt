// Steps on whole exponents, within their range.
#![tactic(auto)]

mod whole;

ghost use Rattle.std.specs.Prelude.{◌≡◌, true, set, is_some, IfSome, MatchOption};
ghost use Rattle.tape.specs.Inner.Operations.{step_for};
ghost use Rattle.machine.specs.Exponents.{exponents_of, first_exponents, in_range, makes_in_range, shift_in_range};

use machine::Exponents;
use tape::{Opcode, Operation};
use whole::{difference, exponent, set_exponent, sum};

// The first four of some exponents; 0 stands for one that is missing.
pub fn exponents_of(exponents: &[i64]) -> Exponents
    ensures { exponents_of result ≡ first_exponents exponents.now }
{
    let [c, d, e, f] = [0, 1, 2, 3].map(|i| exponent(exponents, i));
    Exponents { c, d, e, f }
}

// A step on whole exponents, in place: whether the number that it makes is in the range. Where it isn't, nothing changes. The other
// exponents are not looked at: a step leaves them as they are. A swp makes no number.
pub fn shift(exponents: &mut [i64], op: Operation) -> bool
    ensures value { result ≡ makes_in_range (step_for op) exponents.old }
    ensures exponents_after { exponents.new ≡ shift_in_range (step_for op) exponents.old }
{
    let x = exponent(exponents, op.target);
    let y = exponent(exponents, op.source);
    match op.opcode {
        Opcode::Mul => set_made(exponents, op.target, sum(x, y)),
        Opcode::Div => set_made(exponents, op.target, difference(x, y)),
        // By two sets: `swap` wants both in the row, and here an exponent that is missing reads as 0 and is not set.
        Opcode::Swp => {
            set_exponent(exponents, op.target, y);
            set_exponent(exponents, op.source, x);
            true
        }
    }
}

// The number that a step makes, set at its target, if it is in the range: whether it is.
fn set_made(exponents: &mut [i64], target: u32, made: Option<i64>) -> bool
    requires { IfSome made (λ x. in_range x ≡ true) }
    ensures value { result ≡ is_some made }
    ensures exponents_after { MatchOption made (exponents.new ≡ exponents.old) (λ x. exponents.new ≡ set exponents.old target x) }
{
    let Some(x) = made else {
        return false;
    };
    set_exponent(exponents, target, x);
    true
}
