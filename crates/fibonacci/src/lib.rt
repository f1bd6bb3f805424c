// REQUIREMENTS 2: Fibonacci numbers, Zeckendorf forms, Hofstadter's G and h. The definitions and laws of this
// layer, and the types that they name, with what fills and reads them.
#![tactic(auto)]

ghost use Rattle.std.specs.Prelude.{◌≡◌, ◌++◌, ◌∷◌, [], take};

use std::marker::Model;

// No 64-bit number's form has more places.
pub const MAX_PLACES: usize = 46;

// A list of places, as of the Zeckendorf form of a 64-bit number. Zeros stand past it, so that the list tells the row and the count, and a
// form can be copied.
#[derive(Clone, Copy)]
pub struct Form {
    row: [u8; MAX_PLACES],
    count: usize,
}

impl Model for Form {
    ghost use Rattle.std.specs.Prelude.{ℕ, List, ◌≡◌, ◌≤◌, ◌-◌, ◌++◌, length, take, drop, replicate};
    ghost use Rattle.std.proofs.Common.{arith, length-take-le};
    ghost use Rattle.refusal.proofs.Laws.Zeros.{row_told};

    ghost Value = { List ℕ };

    ghost view = { λ f. take f.count f.row };

    ghost invariant = { λ f. (f.count ≤ 46) × (length f.row ≡ 46) × (drop f.count f.row ≡ replicate (46 - f.count) 0) };

    ghost inverse = { λ l. record { row = l ++ replicate (46 - length l) 0; count = length l } };

    ghost inverse_ok = { λ f held i. record {
      row = row_told 46 f.row f.count held.2 (omega (arith, held.0, held.1)) i;
      count = length-take-le f.count f.row (omega (arith, held.0, held.1)) i;
    } };
}

impl Form {
    // No place yet.
    pub fn new() -> Form
        ensures { result ≡ [] }
    {
        Form {
            row: [0; MAX_PLACES],
            count: 0,
        }
    }

    // One more place behind the others; a full list stays as it is.
    pub fn push(&mut self, place: u8)
        ensures { self.new ≡ take 46 (self.old ++ (place ∷ [])) }
    {
        if self.count < MAX_PLACES {
            self.row[self.count] = place;
            self.count += 1;
        }
    }

    // The places.
    pub fn places(&self) -> &[u8]
        ensures { result.now ≡ self.now }
    {
        &self.row[..self.count]
    }
}

// The Zeckendorf form as the paper's bit string: bit i - 1 is place i; the length is the highest place, the count how many are set.
#[derive(Clone, Copy)]
pub struct BitString {
    pub bits: [u8; 92],
    pub length: usize,
    pub count: usize,
}

// A place, its weight F_(place+1), and F_place, which the place below weighs.
#[derive(Clone, Copy)]
pub struct Weight {
    pub place: usize,
    pub weight: u64,
    pub below: u64,
}
