// Whole exponents in a row, and their range.
ghost use Rattle.std.specs.Prelude.{◌≡◌, true, ◌+ℤ◌, ◌-ℤ◌, set, SomeIff};
ghost use Rattle.machine.specs.Exponents.{exponent, in_range};

// The range is from -2^62 to 2^62, both among them.
const LOWEST: i64 = -(1 << 62);

const HIGHEST: i64 = 1 << 62;

// The exponent of a register; past the last there is none, and 0 stands for it.
pub(crate) fn exponent(exponents: &[i64], i: u32) -> i64
    ensures { result ≡ exponent exponents.now i }
{
    exponents.get(i as usize).copied().unwrap_or(0)
}

// One exponent changed; past the last there is none to change.
pub(crate) fn set_exponent(exponents: &mut [i64], i: u32, x: i64)
    ensures { exponents.new ≡ set exponents.old i x }
{
    let at = i as usize;
    // By the length: after `get_mut` no element of the row is known.
    if at < exponents.len() {
        exponents[at] = x;
    }
}

// A sum, if it is in the range.
pub(crate) fn sum(x: i64, y: i64) -> Option<i64>
    ensures { SomeIff result (in_range (x +ℤ y) ≡ true) (x +ℤ y) }
{
    in_range(x.checked_add(y)?)
}

// And a difference.
pub(crate) fn difference(x: i64, y: i64) -> Option<i64>
    ensures { SomeIff result (in_range (x -ℤ y) ≡ true) (x -ℤ y) }
{
    in_range(x.checked_sub(y)?)
}

// A number, if it is in the range. Its tests come out the same from step to step, as a test of its sign wouldn't.
fn in_range(x: i64) -> Option<i64>
    ensures { SomeIff result (in_range x ≡ true) x }
{
    if LOWEST <= x && x <= HIGHEST {
        return Some(x);
    }
    None
}
