// Lists of places both ways: the list of a number, and the number of a list.
#![tactic(auto)]

ghost use Rattle.std.specs.Prelude.{◌≡◌, length};
ghost use Rattle.refusal.specs.Outcomes.{outcome_of};
ghost use Rattle.fibonacci.specs.Services.{places_outcome, places_buffer, number_outcome};

use golden::fibonacci_or_zero;
use refusal::Refusal;
use std::num::wrapping_add_u64;
use zeckendorf::zeckendorf;

// Two above the last place, 92.
const ABOVE_LAST: u32 = 94;

// Number to list: the places of n, highest first, into the buffer; the bytes past them stay.
pub fn places(n: u64, buffer: &mut [u8]) -> Result<u64, Refusal>
    ensures result_value { outcome_of result ≡ places_outcome n (length buffer.old) }
    ensures buffer_after { buffer.new ≡ places_buffer n buffer.old }
{
    let form = zeckendorf(n);
    let list = form.places();
    let count = list.len();
    if buffer.len() < count {
        return Err(Refusal::Room);
    }
    buffer[..count].copy_from_slice(list);
    Ok(count as u64)
}

// List to number: the sum of the weights of its places, modulo 2^64. A sum past 64 bits leaves less than the weight of the highest place.
// After a place 0 no place can follow, so only the last can be 0, and that is told after the loop.
pub fn number_of_places(list: &[u8]) -> Result<u64, Refusal>
    ensures { outcome_of result ≡ number_outcome list.now }
{
    let Some(highest) = list.first() else {
        return Ok(0);
    };
    let mut above = ABOVE_LAST;
    let mut sum: u64 = 0;
    for place in list {
        let place = u32::from(*place);
        if above < place + 2 {
            return Err(Refusal::Index);
        }
        sum = wrapping_add_u64(sum, fibonacci_or_zero(place + 1));
        above = place;
    }
    if above == 0 {
        return Err(Refusal::Index);
    }
    if sum < fibonacci_or_zero(u32::from(*highest) + 1) {
        return Err(Refusal::Range);
    }
    Ok(sum)
}
