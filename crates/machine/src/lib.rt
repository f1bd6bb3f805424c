// REQUIREMENTS 3: four registers, what a step makes of them modulo p, and of their whole exponents. The definitions
// and laws of this layer, and the types that they name; it has no functions.
#![tactic(auto)]

// The registers 0 to 3 under the source's names.
#[derive(Clone, Copy)]
pub struct Registers {
    pub c: u32,
    pub d: u32,
    pub e: u32,
    pub f: u32,
}

// The registers' whole exponents, unreduced, minus signs kept.
#[derive(Clone, Copy)]
pub struct Exponents {
    pub c: i64,
    pub d: i64,
    pub e: i64,
    pub f: i64,
}

// How many of some steps are mul, div and swp.
#[derive(Clone, Copy)]
pub struct Counts {
    pub mul: u32,
    pub div: u32,
    pub swp: u32,
}
