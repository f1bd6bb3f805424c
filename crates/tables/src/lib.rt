// Document 02, T-02: the exponent of each start value in each register. The definitions and laws of this layer, and the type that they
// name; it has no functions.
#![tactic(auto)]

use machine::Exponents;

// A row for each register under the source's names. In a row, `c` to `f` are the exponents of what those registers started from.
#[derive(Clone, Copy)]
pub struct Table {
    pub c: Exponents,
    pub d: Exponents,
    pub e: Exponents,
    pub f: Exponents,
}
