// Zeckendorf forms.
#![tactic(auto)]

mod weights;

ghost use Rattle.std.specs.Prelude.{◌≡◌, length};
ghost use Rattle.fibonacci.specs.Forms.{zeckendorf};
ghost use Rattle.fibonacci.specs.Services.{places_of, bit_row};

use fibonacci::{BitString, Form};
use weights::{high_enough, lower};

// The Zeckendorf form of n: from the highest place down, each place taken whose weight is left.
pub fn zeckendorf(n: u64) -> Form
    ensures { result ≡ places_of n }
{
    let mut form = Form::new();
    let mut rest = n;
    let mut at = high_enough(n);
    // By the place that is at hand, which goes down with its two weights: there is no row to go through.
    while at.place > 0 {
        if at.weight <= rest {
            form.push(at.place as u8);
            rest -= at.weight;
        }
        at = lower(at);
    }
    form
}

// The bit string of the Zeckendorf form of n, for the programs' loops over places.
pub fn bit_string(n: u64) -> BitString
    ensures length_value { result.length ≡ length (zeckendorf n) }
    ensures bits_value { result.bits ≡ bit_row n }
    ensures count_value { result.count ≡ length (places_of n) }
{
    let form = zeckendorf(n);
    let mut bits = [0u8; 92];
    let mut length: usize = 0;
    for place in form.places().iter().rev() {
        length = *place as usize;
        bits[length - 1] = 1;
    }
    BitString {
        bits,
        length,
        count: form.places().len(),
    }
}
