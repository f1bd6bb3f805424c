// What p and the variant of a named program may be: the tests of refusals 1 and 4.
#![tactic(auto)]

ghost use Rattle.std.specs.Prelude.{◌≡◌};
ghost use Rattle.named.specs.Parameters.{bad_modulus, bad_variant};

use named::Variant;

// Refusal 1: p isn't a prime from 3 to 268435455.
pub fn is_bad_modulus(p: u32) -> bool
    ensures { result ≡ bad_modulus p }
{
    if p < 3 || tape::NUMBER_LIMIT <= p {
        return true;
    }
    !modular::is_prime(p)
}

// Refusal 4 in build, which asks `Variant` itself: the number names no variant. Check asks it here, to tell the tapes of named programs
// from others.
pub fn is_bad_variant(variant: u32) -> bool
    ensures { result ≡ bad_variant variant }
{
    Variant::try_from(variant).is_err()
}
