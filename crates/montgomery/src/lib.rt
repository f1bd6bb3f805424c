// Products modulo an odd number without a division, by Montgomery's form: x stands as x × 2^32, and a reduction divides by 2^32.
#![tactic(auto)]

ghost use Rattle.std.specs.Prelude.{◌≡◌, ◌^◌};
ghost use Rattle.modular.specs.Residues.{remainder};
ghost use Rattle.montgomery.specs.Inner.Forms.{IsModulus, square_of, lift, reduction, form_times, enter, leave, form_inverse};
ghost use Rattle.montgomery.specs.Inner.Squaring.{Power};

use modular::{inverse_or_zero, product};

const WORD: u64 = 0x1_0000_0000;

// A modulus p; its inverse modulo 2^32, where it is odd; and a number from 1 to p that is 2^64 modulo p.
#[derive(Clone, Copy)]
pub struct Modulus {
    pub value: u32,
    pub inverse: u32,
    pub square: u32,
}

// Numbers are widened by `as`: in the products of these formulas `u64::from` is no plainer.
impl Modulus {
    // A modulus made ready: Newton's iteration from 1, which is the inverse of an odd number modulo 2, and one division.
    pub fn new(p: u32) -> Modulus
        ensures { IsModulus p result }
    {
        Modulus {
            value: p,
            inverse: lifted(p, lifted(p, lifted(p, lifted(p, lifted(p, 1))))),
            square: square_of(p),
        }
    }

    // Into the form.
    pub fn enter(self, x: u32) -> u32
        ensures { result ≡ enter self x }
    {
        self.multiply(x, self.square)
    }

    // Out of the form.
    pub fn leave(self, x: u32) -> u32
        ensures { result ≡ leave self x }
    {
        self.reduced(x as u64)
    }

    // The product of two numbers in the form.
    pub fn multiply(self, x: u32, y: u32) -> u32
        ensures { result ≡ form_times self x y }
    {
        self.reduced((x as u64) * (y as u64))
    }

    // The inverse of a number in the form; the form of 0 where there is none.
    pub fn invert(self, x: u32) -> u32
        ensures { result ≡ form_inverse self x }
    {
        self.enter(inverse_or_zero(self.leave(x), self.value))
    }

    // Montgomery's reduction: a multiple of p has the low word of t, and the difference of the high words is the quotient.
    fn reduced(self, t: u64) -> u32
        ensures { result ≡ reduction self.value self.inverse t }
    {
        let u = t % WORD * (self.inverse as u64) % WORD;
        let high = (t / WORD) as u32;
        let multiple = (u * (self.value as u64) / WORD) as u32;
        if high < multiple {
            return high + (self.value - multiple);
        }
        high - multiple
    }
}

// The power modulo m; modulo 0 it is 0. Of an even m there is no form, and a product takes a division.
pub fn power(base: u32, exponent: u32, m: u32) -> u32
    ensures { result ≡ remainder (base ^ exponent) m }
{
    if m == 0 {
        return 0;
    }
    if m % 2 == 0 {
        return power_by(|x, y| product(x, y, m), 1 % m, base % m, exponent);
    }
    let modulus = Modulus::new(m);
    let form = power_by(
        |x, y| modulus.multiply(x, y),
        modulus.enter(1),
        modulus.enter(base),
        exponent,
    );
    modulus.leave(form)
}

// The power by repeated squaring, from what stands for 1 and for the base in a product.
fn power_by<P: Fn(u32, u32) -> u32>(product: P, one: u32, base: u32, exponent: u32) -> u32
    requires { P.IsAlwaysCallable product }
    ensures { Power (P.post product) one base exponent result }
{
    let mut result = one;
    let mut square = base;
    let mut rest = exponent;
    while rest > 0 {
        if rest % 2 == 1 {
            result = product(result, square);
        }
        square = product(square, square);
        rest /= 2;
    }
    result
}

// One turn of Newton's iteration: twice as many digits of the inverse of p modulo 2^32.
fn lifted(p: u32, v: u32) -> u32
    ensures { result ≡ lift p v }
{
    let unit = (p as u64) * (v as u64) % WORD;
    ((v as u64) * ((WORD + 2 - unit) % WORD) % WORD) as u32
}

// 2^64 modulo p, from 1 to p; modulo 0 it is 1.
fn square_of(p: u32) -> u32
    ensures { result ≡ square_of p }
{
    if p == 0 {
        return 1;
    }
    (u64::MAX % (p as u64)) as u32 + 1
}
