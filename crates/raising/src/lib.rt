// Many bases in one pass through a named program.
#![tactic(auto)]

ghost use Rattle.std.specs.Prelude.{◌≡◌};
ghost use Rattle.refusal.specs.Outcomes.{verdict_of};
ghost use Rattle.sequencer.specs.Bases.{raise_outcome, raised_bases};

use accepting::Accepted;
use conditions::check_bases;
use lanes::run_lanes;
use montgomery::Modulus;
use refusal::Refusal;
use sequencer::MAX_BASES;

// Each base of a lent row replaced by what loading and running it alone, forward from end to end, leaves in register 1, which is its
// power: check's refusals, 4 for a free program, 14 above 64 bases, then 9 and 11 of each base in row order. A refusal leaves the row as
// it is. The tape is accepted once, and each step is decoded once and done for every base.
pub fn raise(tape: &[u32], bases: &mut [u32]) -> Result<(), Refusal>
    ensures result_value { verdict_of result ≡ raise_outcome tape.now bases.old }
    ensures bases_after { bases.new ≡ raised_bases tape.now bases.old }
{
    let accepted = accepting::accept_tape(tape)?;
    raise_accepted(accepted, bases)
}

// Through a program that is accepted: 4, 14, then the bases' refusals.
fn raise_accepted(accepted: Accepted, bases: &mut [u32]) -> Result<(), Refusal>
    ensures result_value { verdict_of result ≡ raise_outcome accepted.entry.tape.now bases.old }
    ensures bases_after { bases.new ≡ raised_bases accepted.entry.tape.now bases.old }
{
    let header = accepted.header;
    if header.variant == 0 {
        return Err(Refusal::Variant);
    }
    if MAX_BASES < bases.len() {
        return Err(Refusal::Count);
    }
    check_bases(header, bases)?;
    run_lanes(accepted.steps(), Modulus::new(header.modulus), bases);
    Ok(())
}
