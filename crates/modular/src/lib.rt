// Arithmetic modulo m on 32-bit numbers, for every m: products, primes and inverses.
#![tactic(auto)]

ghost use Rattle.std.specs.Prelude.{◌≡◌, ◌*◌};
ghost use Rattle.refusal.specs.Outcomes.{outcome_of};
ghost use Rattle.modular.specs.Residues.{remainder};
ghost use Rattle.modular.specs.Primes.{is_prime};
ghost use Rattle.modular.specs.Inverses.{inverse, nonzero, exponent_inverse, inverse_outcome};

use refusal::Refusal;

// The product modulo m; modulo 0 it is 0.
pub fn product(x: u32, y: u32, m: u32) -> u32
    ensures { result ≡ remainder (x * y) m }
{
    if m == 0 {
        return 0;
    }
    (u64::from(x) * u64::from(y) % u64::from(m)) as u32
}

// From here on the table of small divisors takes less time than the divisions it stands for.
const TABLE_FROM: u32 = 65536;

// Whether p is prime: 2 and 3, then each 6i - 1 and 6i + 1 up to the square root, of which the table has those up to 2^14.
pub fn is_prime(p: u32) -> bool
    ensures { result ≡ is_prime p }
{
    if p < 2 {
        return false;
    }
    if p < 4 {
        return true;
    }
    if p % 2 == 0 || p % 3 == 0 {
        return false;
    }
    let first = if p < TABLE_FROM {
        5
    } else if divisors::has_small_divisor(p) {
        return false;
    } else {
        16385
    };
    // A number of 32 bits has its square root below 65536.
    for d in (first..65536).step_by(6) {
        if p < d * d {
            return true;
        }
        if p % d == 0 || p % (d + 2) == 0 {
            return false;
        }
    }
    true
}

// The inverse of x modulo m, where it has one: by the extended Euclidean algorithm.
pub fn inverse_of(x: u32, m: u32) -> Option<u32>
    ensures { result ≡ nonzero (inverse m x) }
{
    if m < 2 {
        return None;
    }
    let (mut a, mut b) = (m, x % m);
    let (mut s, mut t): (i64, i64) = (0, 1);
    while b != 0 {
        let q = i64::from(a / b);
        (a, b) = (b, a % b);
        (s, t) = (t, s - q * t);
    }
    if a != 1 {
        return None;
    }
    if s < 0 {
        s += i64::from(m);
    }
    Some(s as u32)
}

// The same, with 0 where it has none.
pub fn inverse_or_zero(x: u32, m: u32) -> u32
    ensures { result ≡ inverse m x }
{
    inverse_of(x, m).unwrap_or(0)
}

// The inverse of an exponent k of an order r, where refusal 3 lets it pass: k is below r and shares no factor with it.
pub fn exponent_inverse(k: u32, r: u32) -> Option<u32>
    ensures { result ≡ exponent_inverse k r }
{
    if r <= k {
        return None;
    }
    inverse_of(k, r)
}

// The inverse service.
pub fn inverse(k: u32, r: u32) -> Result<u64, Refusal>
    ensures { outcome_of result ≡ inverse_outcome k r }
{
    if r < 2 {
        return Err(Refusal::Order);
    }
    let value = exponent_inverse(k, r).ok_or(Refusal::Exponent)?;
    Ok(u64::from(value))
}
