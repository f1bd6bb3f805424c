// Registers in a row, by their numbers.
ghost use Rattle.std.specs.Prelude.{◌≡◌, set};
ghost use Rattle.montgomery.specs.Inner.Forms.{form_times};
ghost use Rattle.machine.specs.Machine.{reg};

use montgomery::Modulus;
use register_forms::register;

// One register multiplied.
pub(crate) fn multiply_register(values: &mut [u32], t: u32, y: u32, m: Modulus)
    ensures { values.new ≡ set values.old t (form_times m (reg values.old t) y) }
{
    let x = m.multiply(register(values, t), y);
    set_register(values, t, x)
}

// Two registers exchanged. By two sets: `swap` wants both in the row, and here one that is missing reads as 0 and is not set.
pub(crate) fn exchange(values: &mut [u32], t: u32, s: u32)
    ensures { values.new ≡ set (set values.old t (reg values.old s)) s (reg values.old t) }
{
    let x = register(values, t);
    let y = register(values, s);
    set_register(values, t, y);
    set_register(values, s, x)
}

// One register changed; past the last there is none to change.
fn set_register(values: &mut [u32], i: u32, x: u32)
    ensures { values.new ≡ set values.old i x }
{
    let at = i as usize;
    // By the length: after `get_mut` no element of the row is known.
    if at < values.len() {
        values[at] = x;
    }
}
