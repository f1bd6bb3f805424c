// The rules of the layout, each tested by itself, and the header that a tape gives.
ghost use Rattle.std.specs.Prelude.{◌≡◌, ◌≤◌, length};
ghost use Rattle.tape.specs.Words.{decoded};
ghost use Rattle.tape.specs.Layout.{max_words, step_count, end_at, value_of, means_at, header_of, is_length, is_header, is_free_or_named, all_steps, is_end};

use decoding::{decode, is_step};
use tape::{Decoded, HEADER_WORDS, Header, MAX_WORDS, OTHER_WORDS};

// 5 to 512 words.
pub(crate) fn is_length(tape: &[u32]) -> bool
    ensures { result ≡ is_length tape.now }
{
    (OTHER_WORDS..=MAX_WORDS).contains(&tape.len())
}

// Words of kind 1, 2, 3, 4 come first, in that order.
pub(crate) fn is_header(tape: &[u32]) -> bool
    ensures { result ≡ is_header tape.now }
{
    matches!(
        (
            means_at(tape, 0),
            means_at(tape, 1),
            means_at(tape, 2),
            means_at(tape, 3)
        ),
        (
            Decoded::Heading(_),
            Decoded::P(_),
            Decoded::R(_),
            Decoded::K(_)
        )
    )
}

// What a tape gives beside its steps.
pub(crate) fn header_of(tape: &[u32]) -> Header
    requires { length tape.now ≤ max_words }
    ensures { result ≡ header_of tape.now }
{
    Header {
        variant: value_of(means_at(tape, 0)),
        modulus: value_of(means_at(tape, 1)),
        order: value_of(means_at(tape, 2)),
        exponent: value_of(means_at(tape, 3)),
        steps: step_count(tape) as u32,
    }
}

// A free program has 0 for r and k.
pub(crate) fn is_free_or_named(h: Header) -> bool
    ensures { result ≡ is_free_or_named h }
{
    h.variant != 0 || h.order == 0 && h.exponent == 0
}

// Each of the words is a step's.
pub(crate) fn are_steps(words: &[u32]) -> bool
    ensures { result ≡ all_steps words.now }
{
    words.iter().all(|word| is_step(*word))
}

// The word past the steps is the end, with their count.
pub(crate) fn is_end(tape: &[u32]) -> bool
    ensures { result ≡ is_end (step_count tape.now) (decoded (end_at tape.now)) }
{
    let steps = step_count(tape);
    let Decoded::End(count) = means_at(tape, HEADER_WORDS + steps) else {
        return false;
    };
    count as usize == steps
}

// The count of steps that a tape of this length has room for.
fn step_count(tape: &[u32]) -> usize
    ensures { result ≡ step_count tape.now }
{
    tape.len().saturating_sub(OTHER_WORDS)
}

// What the word at an index means; past the tape, nothing.
pub(crate) fn means_at(tape: &[u32], i: usize) -> Decoded
    ensures { result ≡ means_at tape.now i }
{
    tape.get(i).map_or(Decoded::Bad, |word| decode(*word))
}

// The number that a meaning holds; 0 for a step and where there is none.
pub(crate) fn value_of(d: Decoded) -> u32
    ensures { result ≡ value_of d }
{
    match d {
        Decoded::Heading(n) | Decoded::P(n) | Decoded::R(n) | Decoded::K(n) | Decoded::End(n) => n,
        Decoded::Action(_) | Decoded::Bad => 0,
    }
}
