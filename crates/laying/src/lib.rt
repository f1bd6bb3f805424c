// A tape laid out in a lent buffer: every word but the steps'.
#![tactic(auto)]

ghost use Rattle.std.specs.Prelude.{◌≡◌, length};
ghost use Rattle.tape.specs.Layout.{word_count, numbers_fit, laid_buffer};
ghost use Rattle.laying.specs.Place.{lay_place};

use tape::{FORMAT, FORMATS, HEADER_WORDS, Header, NUMBER_LIMIT, OTHER_WORDS};

// Variants are below this.
const VARIANT_LIMIT: u32 = 16;

// How many words the tape of a header has.
pub fn word_count(header: Header) -> usize
    ensures { result ≡ word_count header }
{
    header.steps as usize + OTHER_WORDS
}

// Lays a tape out: writes the words before the steps and the word past them, and answers the index of the first step's word. Where
// the buffer is too short or a number doesn't fit its word, it writes nothing and answers none.
#[tactic(auto, using(tape::proofs::Laws::Writing::numbers_fit_lem))]
pub fn lay_out(buffer: &mut [u32], header: Header) -> Option<usize>
    ensures value { result ≡ lay_place header (length buffer.old) }
    ensures buffer_after { buffer.new ≡ laid_buffer header buffer.old }
{
    if buffer.len() < word_count(header) {
        return None;
    }
    if !numbers_fit(header) {
        return None;
    }
    buffer[0] = NUMBER_LIMIT + (FORMAT + FORMATS * header.variant);
    buffer[1] = 2 * NUMBER_LIMIT + header.modulus;
    buffer[2] = 3 * NUMBER_LIMIT + header.order;
    buffer[3] = 4 * NUMBER_LIMIT + header.exponent;
    buffer[HEADER_WORDS + header.steps as usize] = 15 * NUMBER_LIMIT + header.steps;
    Some(HEADER_WORDS)
}

// Each number fits its word.
fn numbers_fit(h: Header) -> bool
    ensures { result ≡ numbers_fit h }
{
    h.variant < VARIANT_LIMIT
        && h.modulus < NUMBER_LIMIT
        && h.order < NUMBER_LIMIT
        && h.exponent < NUMBER_LIMIT
        && h.steps < NUMBER_LIMIT
}
