// REQUIREMENTS 8 and 16: load, run, trace, table, cut, rows of bases, sessions, the preview, and lists of runs. The definitions and laws of
// this layer, demand 3 among them, and the types and the limit that they name; it has no functions.
#![tactic(auto)]

use machine::{Counts, Registers};

// Document 02's register record: the four registers and the position.
#[derive(Clone, Copy)]
pub struct State {
    pub registers: Registers,
    pub position: u32,
}

// What a preview shows: the registers at its goal, and the mul, div and swp steps on the way there.
#[derive(Clone, Copy)]
pub struct Preview {
    pub registers: Registers,
    pub counts: Counts,
}

// The most bases of a row.
pub const MAX_BASES: usize = 64;
