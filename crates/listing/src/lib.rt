// REQUIREMENTS 11: what a tape holds, line by line. The definitions and laws of this layer, and the type that they name; it has
// no functions.
#![tactic(auto)]

use named::LONGEST_NAME;
use tape::MAX_STEPS;

// How many bytes were written, and the refusal's number, which is 0 where the tape is accepted.
#[derive(Clone, Copy)]
pub struct Listed {
    pub written: usize,
    pub number: u32,
}

// The most bytes of a listing (`tape_listing_most`).
pub const MAX_WRITTEN: usize = 47 + LONGEST_NAME + 12 * MAX_STEPS;
