// What the words of a tape mean.
#![tactic(auto)]

mod steps;

ghost use Rattle.std.specs.Prelude.{◌≡◌, get_or};
ghost use Rattle.tape.specs.Words.{decoded, heading_in};
ghost use Rattle.tape.specs.Layout.{step_of};

use steps::step_in;
pub use steps::{is_step, operation_of};
use tape::{Decoded, FORMAT, FORMATS, NUMBER_LIMIT, Step};

// Headings' payloads are below this.
const HEADINGS: u32 = 0x1000;

// What a word means, by its kind.
pub fn decode(word: u32) -> Decoded
    ensures { result ≡ decoded word }
{
    let payload = word % NUMBER_LIMIT;
    match word / NUMBER_LIMIT {
        1 => heading_in(payload),
        2 => Decoded::P(payload),
        3 => Decoded::R(payload),
        4 => Decoded::K(payload),
        5 | 6 | 7 => match step_in(word) {
            Some(step) => Decoded::Action(step),
            None => Decoded::Bad,
        },
        15 => Decoded::End(payload),
        0 | 8..=14 => Decoded::Bad,
        _ => Decoded::Bad,
    }
}

// The heading of a tape of this format.
fn heading_in(payload: u32) -> Decoded
    ensures { result ≡ heading_in payload }
{
    if payload % FORMATS != FORMAT || HEADINGS <= payload {
        return Decoded::Bad;
    }
    Decoded::Heading(payload / FORMATS)
}

// The step at a place of a row of step words. It answers a step for every row, and a tape that is laid out has a step at every such
// place; so mul 0 1 stands for what is none, as `step_of` has it.
pub fn nth_step(words: &[u32], i: usize) -> Step
    ensures { result ≡ step_of (decoded (get_or words.now i 0)) }
{
    let word = words.get(i).copied().unwrap_or(0);
    step_in(word).unwrap_or(Step::Mul(0, 1))
}
