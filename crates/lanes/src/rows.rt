// Rows one behind another, each as long as there are lanes.
ghost use Rattle.std.specs.Prelude.{◌<◌};
ghost use Rattle.lanes.specs.Inner.Lanes.{Rows, Exchanged, Multiplied};

use montgomery::Modulus;

// The length of a row, which is the most lanes there are.
pub(crate) const LANES: usize = 64;

// The row of register 0's inverse; those of the other registers' inverses follow it.
pub(crate) const INVERSES: usize = 4;

// Two rows exchanged, in the first `count` lanes.
pub(crate) fn exchange_rows(rows: &mut [u32], t: usize, s: usize, count: usize)
    requires { Rows count rows.old × (t < 8) × (s < 8) }
    ensures { Exchanged t s count rows.old rows.new }
{
    for j in 0..count {
        rows.swap(LANES * t + j, LANES * s + j);
    }
}

// A register's row multiplied by row a, and its inverse's by row b, in the first `count` lanes.
pub(crate) fn multiply_rows(
    rows: &mut [u32],
    t: usize,
    a: usize,
    b: usize,
    count: usize,
    m: Modulus,
)
    requires { Rows count rows.old × (t < 4) × (a < 8) × (b < 8) }
    ensures { Multiplied m t a b count rows.old rows.new }
{
    for j in 0..count {
        let at = LANES * t + j;
        let beside = LANES * (INVERSES + t) + j;
        let x = m.multiply(rows[at], rows[LANES * a + j]);
        let y = m.multiply(rows[beside], rows[LANES * b + j]);
        rows[at] = x;
        rows[beside] = y;
    }
}
