// REQUIREMENTS 7: the refusals, which are the errors of the services.
#![tactic(auto)]

ghost use Rattle.std.specs.Prelude.{◌≡◌};
ghost use Rattle.refusal.specs.Refusals.{number_of};

// The refusals in the order of their numbers. A comment gives the requirement's word where it differs from the name.
#[derive(Clone, Copy, PartialEq, Eq)]
pub enum Refusal {
    Modulus,
    Order,
    Exponent,
    Variant,
    // document 01: tape
    Room,
    Length,
    Word,
    // document 01: stranger
    Mismatch,
    Register,
    Position,
    Base,
    Range,
    Index,
    // document 02: crowd
    Count,
}

// The number of a refusal.
impl From<Refusal> for u32 {
    ghost from_gives = { λ e n. n ≡ number_of e };

    fn from(refusal: Refusal) -> u32 {
        match refusal {
            Refusal::Modulus => 1,
            Refusal::Order => 2,
            Refusal::Exponent => 3,
            Refusal::Variant => 4,
            Refusal::Room => 5,
            Refusal::Length => 6,
            Refusal::Word => 7,
            Refusal::Mismatch => 8,
            Refusal::Register => 9,
            Refusal::Position => 10,
            Refusal::Base => 11,
            Refusal::Range => 12,
            Refusal::Index => 13,
            Refusal::Count => 14,
        }
    }
}

// What each refusal is given for, by its number, a zero byte after each.
pub const REASONS: [u8; 564] =
    *b"\0p must be a prime from 3 to 268435455\0r must be at least 2 and divide p-1\0k must be from 1 to r-1 and share no factor with r\0the tape's variant is none of those known\0the buffer is shorter than the result\0a tape has 5 to 512 words\0a word, its place or the end's count breaks the layout\0the steps aren't those built for the tape's p, r, k and variant\0the base must be from 1 to p-1\0a position is outside 0 to the step count\0the base's order isn't r\0an exponent leaves -2^62 to 2^62\0not the places of a Zeckendorf form, from 92 down to 1\0a row has at most 64 bases\0";

// The same where a service gives a refusal for a cause of its own.
pub const OWN_REASONS: [u8; 294] =
    *b"\0\0r must be at least 2\0\0the variant must be that of a named program\0\0standard input isn't whole words of 4 bytes\0\0\0each register must be from 1 to p-1\0first and last must be positions up to the step count, first at most last\0\0the sum of the places exceeds 64 bits\0the index must be at most 93\0\0";
