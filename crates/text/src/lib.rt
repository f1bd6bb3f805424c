// Text as bytes: the definitions and laws of this layer, and the bytes that they name. It has no functions.
#![tactic(auto)]

// Between the words of a line.
pub const BLANK: u8 = b' ';

// After every line.
pub const NEWLINE: u8 = 10;
