// The named programs: the definitions and laws of this layer, the variants with their numbers and names, and the figures that draw them.
#![tactic(auto)]

ghost use Rattle.named.specs.Variants.{Names};

use refusal::Refusal;

// The figures of the paper that programs are drawn by: 2, 4 and 6.
#[derive(Clone, Copy)]
pub enum Figure {
    Two,
    Four,
    Six,
}

// The last variant's number.
pub const LAST_VARIANT: u32 = 3;

// The variants of the named programs.
#[derive(Clone, Copy)]
pub enum Variant {
    Basic,
    Dual,
    Hybrid,
}

// A variant by its number, from 1 on; refusal 4 where the number names none.
impl TryFrom<u32> for Variant {
    type Error = Refusal;

    ghost try_from_gives = { Names };

    fn try_from(number: u32) -> Result<Variant, Refusal> {
        match number {
            1 => Ok(Variant::Basic),
            2 => Ok(Variant::Dual),
            LAST_VARIANT => Ok(Variant::Hybrid),
            _ => Err(Refusal::Variant),
        }
    }
}

// The variants' names by their numbers, a zero byte after each. They are one row, as the words of a command line are, so that one look-up
// reads both (`parsing::nth_word`).
pub const VARIANT_NAMES: [u8; 23] = *b"free\0basic\0dual\0hybrid\0";

// The bytes of the longest of them.
pub const LONGEST_NAME: usize = 6;
