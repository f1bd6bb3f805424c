// The registers of many bases, each base in a lane of its own, through the same steps. They stand in Montgomery's form in eight rows, the
// registers 0 to 3 and then the inverse of each, with the lanes side by side. So a step is decoded once, and its products in one lane
// don't wait for those in another.
#![tactic(auto)]

mod rows;

ghost use Rattle.std.specs.Prelude.{◌≡◌, length};
ghost use Rattle.tape.specs.Inner.Operations.{raw_steps, step_for};
ghost use Rattle.lanes.specs.Inner.Lanes.{Rows, Between, BasesIn, Stepped, AllStepped, Unloaded, through_lanes};

use decoding::operation_of;
use montgomery::Modulus;
use rows::{INVERSES, LANES, exchange_rows, multiply_rows};
use tape::{Opcode, Operation};

// The words of all eight rows.
const ALL_WORDS: usize = 512;

// The row of register 1, which has the bases at the start and what the steps make of them at the end.
const BASES: usize = 1;

// The steps that some words have in their digits, done on (1, a, 1, 1) for each base a; what is in register 1 then comes in the base's
// place. A row of more bases than there are lanes stays as it is.
pub fn run_lanes(words: &[u32], m: Modulus, bases: &mut [u32])
    ensures { bases.new ≡ through_lanes m (raw_steps words.now) bases.old }
{
    if LANES < bases.len() {
        return;
    }
    let mut rows = [m.enter(1); ALL_WORDS];
    load_lanes(m, bases, &mut rows);
    do_lanes(words, m, bases.len(), &mut rows);
    unload_lanes(m, &rows, bases)
}

// Each base and its inverse in its lane; all else stays.
fn load_lanes(m: Modulus, bases: &[u32], rows: &mut [u32])
    requires { Rows (length bases.now) rows.old }
    ensures { BasesIn m bases.now rows.old rows.new }
{
    for j in 0..bases.len() {
        let base = m.enter(bases[j]);
        let inverse = m.invert(base);
        rows[LANES * BASES + j] = base;
        rows[LANES * (INVERSES + BASES) + j] = inverse;
    }
}

// The steps of some words, from the first to the last, in the first `count` lanes.
fn do_lanes(words: &[u32], m: Modulus, count: usize, rows: &mut [u32])
    requires { Rows count rows.old }
    ensures { AllStepped m (raw_steps words.now) count rows.old rows.new }
{
    for i in 0..words.len() {
        step_lanes(operation_of(words[i]), m, count, rows);
    }
}

// A step in the first `count` lanes. A division multiplies a register by the inverse of the other, and its inverse by the other.
fn step_lanes(op: Operation, m: Modulus, count: usize, rows: &mut [u32])
    requires { Rows count rows.old × Between op }
    ensures { Stepped m (step_for op) count rows.old rows.new }
{
    let t = op.target as usize;
    let s = op.source as usize;
    match op.opcode {
        Opcode::Mul => multiply_rows(rows, t, s, INVERSES + s, count, m),
        Opcode::Div => multiply_rows(rows, t, INVERSES + s, s, count, m),
        Opcode::Swp => {
            exchange_rows(rows, t, s, count);
            exchange_rows(rows, INVERSES + t, INVERSES + s, count)
        }
    }
}

// What is in register 1 of each lane, in its base's place.
fn unload_lanes(m: Modulus, rows: &[u32], bases: &mut [u32])
    requires { Rows (length bases.old) rows.now }
    ensures { Unloaded m rows.now bases.old bases.new }
{
    for j in 0..bases.len() {
        bases[j] = m.leave(rows[LANES * BASES + j]);
    }
}
