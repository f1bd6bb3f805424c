// Whether registers and bases are allowed.
#![tactic(auto)]

ghost use Rattle.std.specs.Prelude.{◌≡◌, ◌≤◌};
ghost use Rattle.refusal.specs.Outcomes.{outcome, verdict_of};
ghost use Rattle.orders.specs.Orders.{is_order};
ghost use Rattle.machine.specs.Machine.{values_of};
ghost use Rattle.sequencer.specs.Services.{bad_register, bad_registers, bad_base, base_rules};
ghost use Rattle.sequencer.specs.Bases.{row_rules};

use machine::Registers;
use montgomery::power;
use orders::{PrimeDivisors, prime_divisors};
use refusal::Refusal;
use std::marker::Model;
use tape::Header;

// Refusal 9 for one of the four.
pub fn is_some_bad(p: u32, registers: Registers) -> bool
    ensures { result ≡ bad_registers p (values_of registers) }
{
    is_bad_register(p, registers.c)
        || is_bad_register(p, registers.d)
        || is_bad_register(p, registers.e)
        || is_bad_register(p, registers.f)
}

// A base's own refusals: 9, 11. It is a row of one.
pub fn check_base(header: Header, base: u32) -> Result<(), Refusal>
    ensures { verdict_of result ≡ outcome (base_rules header base) 0 }
{
    let row = [base];
    check_bases(header, &row)
}

// The refusals of a row's bases: those of the first base that has one. The prime divisors of r, which decide an order, are found once.
pub fn check_bases(header: Header, bases: &[u32]) -> Result<(), Refusal>
    ensures { verdict_of result ≡ outcome (row_rules header bases.now) 0 }
{
    let rules = Rules::of(header);
    for base in bases {
        rules.check(*base)?;
    }
    Ok(())
}

// What a base is held against: a tape's header, and the prime divisors of its r.
#[derive(Drop)]
struct Rules {
    header: Header,
    primes: PrimeDivisors,
}

impl Model for Rules {
    ghost use Rattle.std.specs.Prelude.{◌≡◌};
    ghost use Rattle.tape.specs.declared.Header.{Header};
    ghost use Rattle.orders.specs.PrimeDivisors.{primes_of};

    ghost Value = { Header };

    ghost view = { λ r. r.header };

    ghost invariant = { λ r. r.primes ≡ primes_of r.header.order };
}

impl Rules {
    fn of(header: Header) -> Rules
        ensures { result ≡ header }
    {
        Rules {
            header,
            primes: prime_divisors(header.order),
        }
    }

    // The refusals of one base.
    fn check(&self, base: u32) -> Result<(), Refusal>
        ensures { verdict_of result ≡ outcome (base_rules self.now base) 0 }
    {
        if is_bad_register(self.header.modulus, base) {
            return Err(Refusal::Register);
        }
        if self.is_bad_base(base) {
            return Err(Refusal::Base);
        }
        Ok(())
    }

    // Refusal 11: named program, r isn't the base's order.
    fn is_bad_base(&self, base: u32) -> bool
        requires { 1 ≤ self.now.modulus }
        ensures { result ≡ bad_base self.now base }
    {
        self.header.variant != 0 && !self.is_order_of(base)
    }

    // Whether r is the order of a base modulo p: r gives 1, and for no prime divisor q of r does r / q give 1.
    fn is_order_of(&self, base: u32) -> bool
        requires { 1 ≤ self.now.modulus }
        ensures { result ≡ is_order self.now.modulus base self.now.order }
    {
        let p = self.header.modulus;
        let r = self.header.order;
        if r == 0 || power(base, r, p) != 1 {
            return false;
        }
        for q in self.primes.primes() {
            if power(base, r / *q, p) == 1 {
                return false;
            }
        }
        true
    }
}

// Refusal 9: a register or base is 0 or at least p.
fn is_bad_register(p: u32, x: u32) -> bool
    ensures { result ≡ bad_register p x }
{
    x == 0 || p <= x
}
