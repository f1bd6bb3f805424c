// The words of steps, told by arithmetic.
ghost use Rattle.std.specs.Prelude.{◌≡◌, eqb, IsSome, MatchOption};
ghost use Rattle.tape.specs.declared.Decoded.TheVariants.{Action};
ghost use Rattle.tape.specs.Words.{decoded, kinds_of};
ghost use Rattle.tape.specs.Layout.{sort_of};
ghost use Rattle.tape.specs.Inner.Operations.{raw_step, step_for};

use tape::{NUMBER_LIMIT, Opcode, Operation, Step};

// Registers are below this; a step's source stands above its target.
const REGISTERS: u32 = 4;

// Steps' payloads are below this.
const REGISTER_PAIRS: u32 = 16;

// Whether a word is a step's. Its kinds are told apart by arithmetic: a branch for each is mispredicted at most
// steps.
pub fn is_step(word: u32) -> bool
    ensures { result ≡ eqb (sort_of (decoded word)) 5 }
{
    let payload = word % NUMBER_LIMIT;
    let kind = word / NUMBER_LIMIT;
    if REGISTER_PAIRS <= payload || kind < 5 {
        return false;
    }
    kind - 5 < kinds_of(payload % REGISTERS, payload / REGISTERS)
}

// How many kinds from 5 on take a target and a source: none where they are equal, and swp where the target is the smaller. By two tests, which
// the compiler makes no branches of: of a `match` on `cmp` it does.
fn kinds_of(target: u32, source: u32) -> u32
    ensures { result ≡ kinds_of target source }
{
    if target < source {
        return 3;
    }
    if source < target {
        return 2;
    }
    0
}

// The step of a word, if it is a step's.
pub(crate) fn step_in(word: u32) -> Option<Step>
    ensures { MatchOption result (¬ (sort_of (decoded word) ≡ 5)) (λ step. decoded word ≡ Action step) }
{
    if !is_step(word) {
        return None;
    }
    let payload = word % NUMBER_LIMIT;
    let target = payload % REGISTERS;
    let source = payload / REGISTERS;
    Some(match word / NUMBER_LIMIT {
        5 => Step::Mul(target, source),
        6 => Step::Div(target, source),
        _ => Step::Swp(target, source),
    })
}

// The step that a word has in its digits, told without a branch. A run, a trace and a preview ask it of the words of an accepted tape,
// where it is their meaning.
pub fn operation_of(word: u32) -> Operation
    ensures { step_for result ≡ raw_step word }
{
    Operation {
        opcode: Opcode::from((word / NUMBER_LIMIT).saturating_sub(5)),
        target: word % REGISTERS,
        source: word / REGISTERS % REGISTERS,
    }
}
