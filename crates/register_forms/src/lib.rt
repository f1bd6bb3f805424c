// Registers in Montgomery's form, in which a product takes no division, and the forms of their inverses, by which a division is a
// product. They lie in a row because a register's number is then its place.
#![tactic(auto)]

ghost use Rattle.std.specs.Prelude.{◌≡◌, map};
ghost use Rattle.montgomery.specs.Inner.Forms.{form_times, enter, leave, form_inverse};
ghost use Rattle.machine.specs.Machine.{reg, values_of};
ghost use Rattle.machine.specs.Inner.Carried.{first_four, inverses_with};

use machine::Registers;
use montgomery::Modulus;

// The forms of the registers.
pub fn forms_of(m: Modulus, registers: Registers) -> [u32; 4]
    ensures { result ≡ map (enter m) (values_of registers) }
{
    [registers.c, registers.d, registers.e, registers.f].map(|x| m.enter(x))
}

// The registers of the first four of some forms; 0 stands for one that is missing.
pub fn registers_of(m: Modulus, forms: &[u32]) -> Registers
    ensures { values_of result ≡ map (leave m) (first_four forms.now) }
{
    let [c, d, e, f] = first_four(forms).map(|x| m.leave(x));
    Registers { c, d, e, f }
}

// The inverses of the first four of some forms by Montgomery's trick: one inverse, of their product, and nine products.
pub fn inverses(m: Modulus, forms: &[u32]) -> [u32; 4]
    ensures { result ≡ inverses_with (form_times m) (form_inverse m) forms.now }
{
    let [c, d, e, f] = first_four(forms);
    let cd = m.multiply(c, d);
    let cde = m.multiply(cd, e);
    let inverse_of_all = m.invert(m.multiply(cde, f));
    let inverse_of_cde = m.multiply(inverse_of_all, f);
    let inverse_of_cd = m.multiply(inverse_of_cde, e);
    [
        m.multiply(inverse_of_cd, d),
        m.multiply(inverse_of_cd, c),
        m.multiply(inverse_of_cde, cd),
        m.multiply(inverse_of_all, cde),
    ]
}

// The first four of some values; 0 stands for one that is missing.
fn first_four(values: &[u32]) -> [u32; 4]
    ensures { result ≡ first_four values.now }
{
    [0, 1, 2, 3].map(|i| register(values, i))
}

// The register of a number; past the last there is none, and 0 stands for it.
pub fn register(values: &[u32], i: u32) -> u32
    ensures { result ≡ reg values.now i }
{
    values.get(i as usize).copied().unwrap_or(0)
}
