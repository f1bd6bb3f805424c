// Whether a small number divides p. Four products of 16 bits tell it of one number, and a processor makes eight of those at once.
#![tactic(auto)]

mod table;

ghost use Rattle.std.specs.Prelude.{◌≡◌, ◌<◌};
ghost use Rattle.divisors.specs.Small.{has_small_divisor};
ghost use Rattle.divisors.specs.Inner.Inverted.{LeftFrom5, sum_limit, carry_of, HalfWordInverse, Table, ZeroWhereDivided, DividedByOne};

use table::{BELOW_4096, INVERSES, PRIMES};

// The largest number that is tried.
const LIMIT: u32 = 16384;

const SUM_LIMIT: u32 = 3221225472;

const HALF_WORD: u32 = 65536;

// Whether a number from 2 to 2^14, other than p, divides p.
pub fn has_small_divisor(p: u32) -> bool
    ensures { result ≡ has_small_divisor p }
{
    if p % 2 == 0 {
        return 2 < p;
    }
    if p % 3 == 0 {
        return 3 < p;
    }
    // A p this small can be a prime of the table, and from `SUM_LIMIT` on `excess` can have too large a sum.
    if p <= LIMIT {
        return has_divisor_from_5(p);
    }
    if p >= SUM_LIMIT {
        return has_divisor_from_5(p);
    }
    if has_divisor_among(p, &PRIMES[..BELOW_4096], &INVERSES[..BELOW_4096]) {
        return true;
    }
    // Of two factors one is at most the root, which is below 4096.
    if p < 0x100_0000 {
        return false;
    }
    has_divisor_among(p, &PRIMES[BELOW_4096..], &INVERSES[BELOW_4096..])
}

// Whether one of the primes divides p. The loop does not end early, and keeps the least excess rather than whether one was zero:
// that is a form of which the compiler makes one over eight entries at a time.
fn has_divisor_among(p: u32, primes: &[u16], inverses: &[u16]) -> bool
    requires { Table p primes.now inverses.now }
    ensures { DividedByOne primes.now p result }
{
    let mut least: u16 = u16::MAX;
    for (d, inverse) in primes.iter().zip(inverses) {
        least = least.min(excess(p, *d, *inverse));
    }
    least == 0
}

// Zero where d divides p, and only there: Montgomery's reduction with 2^16. p and 2^16 times `rest` differ by a multiple of d, so d divides both or neither; and
// `rest` is below 2^16, so that d divides it only where no upper half is left.
fn excess(p: u32, d: u16, inverse: u16) -> u16
    requires p_lt_sum_limit { p < sum_limit }
    requires half_word_inverse { HalfWordInverse d inverse }
    ensures { ZeroWhereDivided p d result }
{
    let low = (p % HALF_WORD) as u16;
    let high = (p / HALF_WORD) as u16;
    let rest = high + d - carry(low, d, inverse);
    carry(rest, d, inverse)
}

// n times the inverse, modulo 2^16, is the quotient where d divides n. d times that has n for its lower half; this is the upper one.
fn carry(n: u16, d: u16, inverse: u16) -> u16
    ensures { result ≡ carry_of n d inverse }
{
    let quotient = (n as u32) * (inverse as u32) % HALF_WORD;
    (quotient * (d as u32) / HALF_WORD) as u16
}

// The same by division, where neither 2 nor 3 divides p.
fn has_divisor_from_5(p: u32) -> bool
    requires { LeftFrom5 p }
    ensures { result ≡ has_small_divisor p }
{
    for d in (5..p.min(LIMIT)).step_by(2) {
        if p % d == 0 {
            return true;
        }
    }
    false
}
