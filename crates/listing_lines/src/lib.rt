// The lines of a listing, put into a lent buffer.
#![tactic(auto)]

ghost use Rattle.std.specs.Prelude.{[], ◌∷◌, ◌++◌};
ghost use Rattle.tape.specs.Steps.{Distinct, Sound};
ghost use Rattle.tape.specs.Layout.{steps_in};
ghost use Rattle.text.specs.Text.{decimal, line};
ghost use Rattle.putting.specs.Buffers.{Puts};
ghost use Rattle.named.specs.Named.{variant_name};
ghost use Rattle.listing.specs.Listing.{refused_line, first_line, step_line, step_lines};

use decoding::nth_step;
use named::VARIANT_NAMES;
use parsing::nth_word;
use putting::Buffer;
use tape::{Header, Step};
use text::{BLANK, NEWLINE};

// The line of a refusal, with its number.
pub fn refused_line(buffer: &mut Buffer, n: u32)
    ensures { Puts buffer.old (refused_line n) buffer.new }
{
    buffer.put_then(b"refused", BLANK);
    buffer.put_number_then(n as u64, NEWLINE);
}

// The first line: the variant's name, p, r, k and the step count.
pub fn first_line(buffer: &mut Buffer, header: Header)
    ensures { Puts buffer.old (first_line header) buffer.new }
{
    buffer.put_then(nth_word(&VARIANT_NAMES, header.variant as usize), BLANK);
    put_labelled(buffer, b"p=", header.modulus, BLANK);
    put_labelled(buffer, b"r=", header.order, BLANK);
    put_labelled(buffer, b"k=", header.exponent, BLANK);
    put_labelled(buffer, b"steps=", header.steps, NEWLINE);
}

// A line for each step, numbered from 1.
pub fn step_lines(buffer: &mut Buffer, words: &[u32])
    ensures { Puts buffer.old (step_lines 1 (steps_in words.now)) buffer.new }
{
    for i in 0..words.len() {
        put_step(buffer, i as u64 + 1, nth_step(words, i));
    }
}

// A step's line.
fn put_step(buffer: &mut Buffer, n: u64, step: Step)
    requires { Sound step }
    ensures { Puts buffer.old (step_line n step) buffer.new }
{
    put_count(buffer, n);
    buffer.put_byte(BLANK);
    match step {
        Step::Mul(target, source) => put_action(buffer, b"mul", target, source),
        Step::Div(target, source) => put_action(buffer, b"div", target, source),
        Step::Swp(target, source) => put_action(buffer, b"swp", target, source),
    }
}

// A step's number. A tape's are of up to three digits: a buffer for so few bytes costs more than putting them one by one.
fn put_count(buffer: &mut Buffer, n: u64)
    ensures { Puts buffer.old (decimal n) buffer.new }
{
    if n < 10 {
        return buffer.put_digit(n);
    }
    if n < 100 {
        buffer.put_digit(n / 10);
        return buffer.put_digit(n);
    }
    if n < 1000 {
        buffer.put_digit(n / 100);
        buffer.put_digit(n / 10);
        return buffer.put_digit(n);
    }
    buffer.put_number(n);
}

// The rest of a step's line: its name, target and source, which are one digit each.
fn put_action(buffer: &mut Buffer, name: &[u8], target: u32, source: u32)
    requires { Distinct target source }
    ensures { Puts buffer.old (line (name.now ∷ decimal target ∷ decimal source ∷ [])) buffer.new }
{
    buffer.put_then(name, BLANK);
    buffer.put_digit(target as u64);
    buffer.put_byte(BLANK);
    buffer.put_digit(source as u64);
    buffer.put_byte(NEWLINE);
}

// A number behind its label, and a byte.
fn put_labelled(buffer: &mut Buffer, label: &[u8], n: u32, last: u8)
    ensures { Puts buffer.old (label.now ++ decimal n ++ last ∷ []) buffer.new }
{
    buffer.put(label);
    buffer.put_number_then(n as u64, last);
}
