// Build: the words of a named program, written into a lent buffer.
#![tactic(auto)]

mod drawing;
mod forms;
mod words;
mod writer;

ghost use Rattle.std.specs.Prelude.{◌≡◌, ◌≤◌, length};
ghost use Rattle.refusal.specs.Outcomes.{outcome_of};
ghost use Rattle.named.specs.Named.{named_words};
ghost use Rattle.named.specs.Parameters.{bad_order};
ghost use Rattle.program.specs.Services.{build_outcome, build_buffer};
ghost use Rattle.program.specs.Inner.Forms.{RowsFromTable};
ghost use Rattle.program.specs.Inner.Building.{Writable, Built};

use drawing::draw;
use forms::{forms, step_count};
use named::Variant;
use parameters::is_bad_modulus;
use program::FormRows;
use refusal::Refusal;
use tape::Header;

// Writes the named program for p, r, k and the variant into the buffer: 1, 2, 3, 4, 5, else the word count.
pub fn build(p: u32, r: u32, k: u32, variant: u32, buffer: &mut [u32]) -> Result<u64, Refusal>
    ensures result_value { outcome_of result ≡ build_outcome p r k variant (length buffer.old) }
    ensures buffer_after { buffer.new ≡ build_buffer p r k variant buffer.old }
{
    if is_bad_modulus(p) {
        return Err(Refusal::Modulus);
    }
    if is_bad_order(p, r) {
        return Err(Refusal::Order);
    }
    let inverse = modular::exponent_inverse(k, r).ok_or(Refusal::Exponent)?;
    let named = Variant::try_from(variant)?;
    write(p, r, k, variant, forms(named, r, k, inverse), buffer)
}

// The room, the header, the steps and the end, whatever the variant: 5, else the word count.
fn write(
    p: u32,
    r: u32,
    k: u32,
    variant: u32,
    forms: FormRows,
    buffer: &mut [u32],
) -> Result<u64, Refusal>
    requires writable { Writable p r k variant }
    requires rows_from_table { RowsFromTable variant r k forms }
    ensures { Built (named_words p r k variant) buffer.old result buffer.new }
{
    let header = Header {
        variant,
        modulus: p,
        order: r,
        exponent: k,
        steps: step_count(&forms) as u32,
    };
    let Some(at) = laying::lay_out(buffer, header) else {
        return Err(Refusal::Room);
    };
    draw(buffer, at, &forms);
    Ok(laying::word_count(header) as u64)
}

// Refusal 2: r < 2, or r doesn't divide p - 1.
fn is_bad_order(p: u32, r: u32) -> bool
    requires { 1 ≤ p }
    ensures { result ≡ bad_order p r }
{
    if r < 2 {
        return true;
    }
    (p - 1) % r != 0
}
