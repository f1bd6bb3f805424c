// The weights of the places: place i weighs F_(i+1). Going down from a place to its neighbour takes one difference.
ghost use Rattle.std.specs.Prelude.{◌≡◌, suc, ◌<◌, ◌≤◌};
ghost use Rattle.fibonacci.specs.Fibonacci.{fib};
ghost use Rattle.fibonacci.specs.Inner.Weights.{IsWeight};

use fibonacci::Weight;
use golden::fibonacci_or_zero;

// A place that is high enough for the form of n, and little higher. The count of n's bits tells it: 36 / 25 is about log 2 / log φ.
pub(crate) fn high_enough(n: u64) -> Weight
    ensures weight { IsWeight result }
    ensures place_bound { result.place ≤ 92 }
    ensures n_bound { n < fib (suc (suc result.place)) }
{
    let place = (36 * (64 - u64::leading_zeros(n)) + 17) / 25;
    Weight {
        place: place as usize,
        weight: fibonacci_or_zero(place + 1),
        below: fibonacci_or_zero(place),
    }
}

// One place down.
pub(crate) fn lower(at: Weight) -> Weight
    requires weight { IsWeight at }
    requires place_nonzero { 0 < at.place }
    ensures below_weight { IsWeight result }
    ensures one_down { suc result.place ≡ at.place }
{
    Weight {
        place: at.place - 1,
        weight: at.below,
        below: at.weight - at.below,
    }
}
