// A tape's header read, and its layout tested.
#![tactic(auto)]

mod rules;

ghost use Rattle.std.specs.Prelude.{◌≡◌};
ghost use Rattle.refusal.specs.Outcomes.{outcome_of};
ghost use Rattle.tape.specs.Layout.{header_outcome, read_outcome};

use parts::steps;
use refusal::Refusal;
use rules::{are_steps, header_of, is_end, is_free_or_named, is_header, is_length};
use tape::Header;

// Reads what a tape's header holds, without a test of the layout: 6.
pub fn read_header(tape: &[u32]) -> Result<Header, Refusal>
    ensures { outcome_of result ≡ header_outcome tape.now }
{
    if !is_length(tape) {
        return Err(Refusal::Length);
    }
    Ok(header_of(tape))
}

// Reads a tape's header and tests its layout: 6, 7.
pub fn read(tape: &[u32]) -> Result<Header, Refusal>
    ensures { outcome_of result ≡ read_outcome tape.now }
{
    if !is_length(tape) {
        return Err(Refusal::Length);
    }
    if !is_header(tape) {
        return Err(Refusal::Word);
    }
    let header = header_of(tape);
    if !is_free_or_named(header) {
        return Err(Refusal::Word);
    }
    if !are_steps(steps(tape)) {
        return Err(Refusal::Word);
    }
    if !is_end(tape) {
        return Err(Refusal::Word);
    }
    Ok(header)
}
