// Numbers read from bytes, in a base from 2 to 16.
ghost use Rattle.std.specs.Prelude.{◌≡◌, [], ◌∷◌, ◌≤◌};
ghost use Rattle.text.specs.Reading.{number_from, in_base};

// The number that a text has in a base: one digit or more, nothing else, and none above `most`.
pub(crate) fn in_base(text: &[u8], most: u64, base: u32) -> Option<u64>
    requires { (2 ≤ base) × (base ≤ 16) }
    ensures { result ≡ in_base base most text.now }
{
    if text.is_empty() {
        return None;
    }
    let mut n: u64 = 0;
    for byte in text {
        n = with_digit(n, *byte, most, base)?;
    }
    Some(n)
}

// The number with one digit more behind it.
#[tactic(auto, using(text::proofs::Laws::Digits::digit_stops, text::proofs::Laws::Digits::digit_passes, text::proofs::Laws::Digits::digit_fits))]
fn with_digit(n: u64, byte: u8, most: u64, base: u32) -> Option<u64>
    requires { (2 ≤ base) × (base ≤ 16) }
    ensures { result ≡ number_from base most n (byte ∷ []) }
{
    let digit = char::from(byte).to_digit(base)?;
    let next = n
        .checked_mul(u64::from(base))?
        .checked_add(u64::from(digit))?;
    (next <= most).then_some(next)
}
