// Check: a tape is accepted where it is laid out, its numbers are allowed and, for a named program, its steps are those that build writes.
#![tactic(auto)]

mod accepted_tape;

ghost use Rattle.std.specs.Prelude.{◌≡◌, true};
ghost use Rattle.refusal.specs.Outcomes.{answered, outcome_of, verdict_of};
ghost use Rattle.tape.specs.Layout.{header_of, header_outcome};
ghost use Rattle.named.specs.Parameters.{bad_variant};
ghost use Rattle.program.specs.Services.{check_outcome, accept_outcome};
ghost use Rattle.accepting.specs.Accepted.{AcceptedAs};
ghost use Rattle.program.specs.Inner.Building.{refused_past};

pub use accepted_tape::Accepted;
use building::build;
use parameters::{is_bad_modulus, is_bad_variant};
use refusal::Refusal;
use tape::{Header, MAX_WORDS};

// Accepts a tape: 6, 7, 4, 1 and, for named programs, 2, 3, 8, else 0.
pub fn check(tape: &[u32]) -> Result<(), Refusal>
    ensures { verdict_of result ≡ check_outcome tape.now }
{
    accept(tape)?;
    Ok(())
}

// Check for the services that go on from there: an accepted tape's header.
pub fn accept(tape: &[u32]) -> Result<Header, Refusal>
    ensures { outcome_of result ≡ accept_outcome tape.now }
{
    let header = layout::read_header(tape)?;
    accept_measured(tape, header)
}

// The same with the tape beside its header, for services that pass both on.
pub fn accept_tape(tape: &[u32]) -> Result<Accepted, Refusal>
    ensures { AcceptedAs tape.now result }
{
    let header = accept(tape)?;
    Ok(Accepted { tape, header })
}

// A tape whose words are those that build writes for its numbers is laid out, so nothing of it is decoded but the header. Only where
// they differ are the rules gone through in their order.
fn accept_measured(tape: &[u32], header: Header) -> Result<Header, Refusal>
    requires { header_outcome tape.now ≡ answered header }
    ensures { outcome_of result ≡ accept_outcome tape.now }
{
    if is_bad_variant(header.variant) {
        return accept_not_named(tape);
    }
    let mut row = [0u32; MAX_WORDS];
    match build(
        header.modulus,
        header.order,
        header.exponent,
        header.variant,
        &mut row,
    ) {
        Err(e) => refuse(tape, e),
        Ok(words) => {
            let n = words as usize;
            if tape == &row[..n] {
                return Ok(header);
            }
            refuse(tape, Refusal::Mismatch)
        }
    }
}

// A refusal that comes after those of the layout.
fn refuse(tape: &[u32], e: Refusal) -> Result<Header, Refusal>
    ensures { outcome_of result ≡ refused_past tape.now e }
{
    layout::read(tape)?;
    Err(e)
}

// A tape that isn't a named program's: 7, 4, 1.
fn accept_not_named(tape: &[u32]) -> Result<Header, Refusal>
    requires { bad_variant (header_of tape.now).variant ≡ true }
    ensures { outcome_of result ≡ accept_outcome tape.now }
{
    let header = layout::read(tape)?;
    if header.variant != 0 {
        return Err(Refusal::Variant);
    }
    if is_bad_modulus(header.modulus) {
        return Err(Refusal::Modulus);
    }
    Ok(header)
}
