// The prime divisors of r, by which it is decided whether r is the order of a base.
#![tactic(auto)]

ghost use Rattle.std.specs.Prelude.{◌≡◌, ◌<◌, ◌≤◌, ◌++◌, ◌∷◌, [], length};
ghost use Rattle.orders.specs.PrimeDivisors.{primes_of};
ghost use Rattle.orders.specs.Inner.Least.{LeastDivisor};

use modular::is_prime;
use std::marker::Model;

// No number of 32 bits has more prime divisors.
pub const MAX_PRIMES: usize = 32;

// A list of prime divisors. Zeros stand past it, so that the list tells the row and the count, and a list can be copied. It isn't one type
// with the `Form` of `fibonacci`, since a generic struct can't hold an array of a type parameter.
#[derive(Clone, Copy)]
pub struct PrimeDivisors {
    row: [u32; MAX_PRIMES],
    count: usize,
}

impl Model for PrimeDivisors {
    ghost use Rattle.std.specs.Prelude.{ℕ, List, ◌≡◌, ◌≤◌, ◌-◌, ◌++◌, length, take, drop, replicate};
    ghost use Rattle.std.proofs.Common.{arith, length-take-le};
    ghost use Rattle.refusal.proofs.Laws.Zeros.{row_told};

    ghost Value = { List ℕ };

    ghost view = { λ p. take p.count p.row };

    ghost invariant = { λ p. (p.count ≤ 32) × (length p.row ≡ 32) × (drop p.count p.row ≡ replicate (32 - p.count) 0) };

    ghost inverse = { λ l. record { row = l ++ replicate (32 - length l) 0; count = length l } };

    ghost inverse_ok = { λ p held i. record {
      row = row_told 32 p.row p.count held.2 (omega (arith, held.0, held.1)) i;
      count = length-take-le p.count p.row (omega (arith, held.0, held.1)) i;
    } };
}

impl PrimeDivisors {
    // None yet.
    fn new() -> PrimeDivisors
        ensures { result ≡ [] }
    {
        PrimeDivisors {
            row: [0; MAX_PRIMES],
            count: 0,
        }
    }

    // One more behind the others.
    fn push(&mut self, prime: u32)
        requires { length self.old < 32 }
        ensures { self.new ≡ self.old ++ (prime ∷ []) }
    {
        self.row[self.count] = prime;
        self.count += 1;
    }

    // The prime divisors.
    pub fn primes(&self) -> &[u32]
        ensures { result.now ≡ self.now }
    {
        &self.row[..self.count]
    }
}

// The prime divisors of r, each once, the least first; of 0 and 1 none. The least divisor of what is left is prime, and is divided out once a
// round: it is the last one found again, or larger.
pub fn prime_divisors(r: u32) -> PrimeDivisors
    ensures { result ≡ primes_of r }
{
    let mut found = PrimeDivisors::new();
    let mut rest = r;
    let mut last: u32 = 1;
    // By what is left, which is divided on: there is nothing to count.
    while 1 < rest {
        let d = least_divisor(rest);
        if last < d {
            found.push(d);
            last = d;
        }
        rest = rest / d;
    }
    found
}

// The least divisor of n above 1: 2, or n where it is prime, which takes less time to tell than divisions up to the root; else the first odd
// number that divides n.
fn least_divisor(n: u32) -> u32
    requires { 2 ≤ n }
    ensures { LeastDivisor n result }
{
    if n % 2 == 0 {
        return 2;
    }
    if is_prime(n) {
        return n;
    }
    // A number of 32 bits that isn't prime has a divisor below 65536.
    for d in (3..65536).step_by(2) {
        if n % d == 0 {
            return d;
        }
    }
    n
}
