// The forms that a variant's program is drawn from, as bit strings; apart from how their steps are written.
ghost use Rattle.std.specs.Prelude.{◌≡◌, [], ◌*◌};
ghost use Rattle.modular.specs.Residues.{remainder};
ghost use Rattle.fibonacci.specs.Forms.{zeckendorf};
ghost use Rattle.named.specs.Generators.{lone, steps_from};
ghost use Rattle.named.specs.Named.{dual_forms, hybrid_forms};
ghost use Rattle.named.specs.Variants.{variant_number};
ghost use Rattle.program.specs.Inner.Forms.{Invertible, string_of, lone_rows, rows_of, set_in, Whole, RowsFromTable};

use fibonacci::BitString;
use golden::fibonacci_or_zero;
use modular::product;
use named::{Figure, Variant};
use program::FormRows;
use zeckendorf::bit_string;

// The forms of a named program, from r, k and the inverse of k.
pub(crate) fn forms(variant: Variant, r: u32, k: u32, inverse: u32) -> FormRows
    requires { Invertible r k inverse }
    ensures { RowsFromTable (variant_number variant) r k result }
{
    match variant {
        Variant::Basic => basic_forms(k, inverse),
        Variant::Dual => dual_forms(r, k, inverse),
        Variant::Hybrid => hybrid_forms(r, k, inverse),
    }
}

// How many steps a figure draws: two for each place, one for each that is set, and the swaps. Figure 2 goes along its chains twice.
pub(crate) fn step_count(forms: &FormRows) -> usize
    requires { Whole forms.now }
    ensures { result ≡ steps_from forms.now.figure forms.now.first.length forms.now.last.length (set_in forms.now) }
{
    let set = forms.first.count + forms.beside.count + forms.last.count + forms.beside_last.count;
    let chains = 2 * (forms.first.length + forms.last.length);
    let loops = chains + set;
    match forms.figure {
        Figure::Two => loops + chains + 1,
        Figure::Four => loops + 2,
        Figure::Six => loops + 3,
    }
}

// Variant 1: the Zeckendorf forms of k and K at their own lengths.
fn basic_forms(k: u32, inverse: u32) -> FormRows
    ensures { result ≡ rows_of (lone Figure.Two (zeckendorf k) (zeckendorf inverse)) }
{
    let first = bit_string(u64::from(k));
    let last = bit_string(u64::from(inverse));
    lone(Figure::Two, first, last)
}

// Variant 2: four forms padded to h.
fn dual_forms(r: u32, k: u32, inverse: u32) -> FormRows
    requires { Invertible r k inverse }
    ensures { result ≡ rows_of (dual_forms r k) }
{
    let h = golden::height(r);
    let low = fibonacci_or_zero(h) as u32;
    let high = fibonacci_or_zero(h + 1) as u32;
    let n = h as usize;
    FormRows {
        figure: Figure::Four,
        first: residue(k, low, r, n),
        beside: residue(k, high, r, n),
        last: residue(inverse, low, r, n),
        beside_last: residue(inverse, high, r, n),
    }
}

// The form of a product modulo r, padded.
fn residue(x: u32, weight: u32, r: u32, length: usize) -> BitString
    ensures { result ≡ string_of length (zeckendorf (remainder (x * weight) r)) }
{
    padded(product(x, weight, r), length)
}

// Variant 3: v = k × F_(ℓ'+1), not reduced, and the form of K padded to ℓ', which is h or h + 1, whichever is odd.
fn hybrid_forms(r: u32, k: u32, inverse: u32) -> FormRows
    requires { Invertible r k inverse }
    ensures { result ≡ rows_of (hybrid_forms r k) }
{
    let h = golden::height(r);
    let l = h + 1 - h % 2;
    let v = bit_string(u64::from(k) * fibonacci_or_zero(l + 1));
    lone(Figure::Six, v, padded(inverse, l as usize))
}

// The form of a number with the length given.
fn padded(number: u32, length: usize) -> BitString
    ensures { result ≡ string_of length (zeckendorf number) }
{
    BitString {
        length,
        ..bit_string(u64::from(number))
    }
}

// A first and a last form with nothing beside them.
fn lone(figure: Figure, first: BitString, last: BitString) -> FormRows
    ensures { result ≡ lone_rows figure first last }
{
    FormRows {
        figure,
        first,
        beside: unset(first.length),
        last,
        beside_last: unset(last.length),
    }
}

// A form with no place set.
fn unset(length: usize) -> BitString
    ensures { result ≡ string_of length [] }
{
    BitString {
        bits: [0; 92],
        length,
        count: 0,
    }
}
