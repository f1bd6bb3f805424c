// The listing of a tape, written into a lent buffer.
#![tactic(auto)]

ghost use Rattle.std.specs.Prelude.{◌≡◌, length};
ghost use Rattle.refusal.specs.Refusals.{number_of};
ghost use Rattle.refusal.specs.Outcomes.{answered, refusal_number};
ghost use Rattle.tape.specs.Layout.{steps_of};
ghost use Rattle.program.specs.Services.{accept_outcome};
ghost use Rattle.text.specs.Rows.{Put};
ghost use Rattle.listing.specs.Listing.{listing_number, listing_of, listing_answer, listing_buffer, refused_line, lines_for};

use encoding::tape_words;
use listing::{Listed, MAX_WRITTEN};
use listing_lines::{first_line, refused_line, step_lines};
use putting::{Buffer, put};
use refusal::Refusal;
use tape::{Header, MAX_WORDS};

// Writes the listing of a tape that is given as bytes; a refusal is one line. 5 where the buffer is shorter than the listing.
pub fn listing(bytes: &[u8], lines: &mut [u8]) -> Listed
    ensures value { result ≡ listing_answer bytes.now (length lines.old) }
    ensures lines_after { lines.new ≡ listing_buffer bytes.now lines.old }
{
    if lines.len() < MAX_WRITTEN {
        return list_short(bytes, lines);
    }
    list_bytes(bytes, lines)
}

// Puts the listing of a tape, from the buffer's start: check's refusal on one line, else the tape's lines. What doesn't fit the buffer is
// dropped; one of `MAX_WRITTEN` bytes holds every listing (`tape_listing_most`).
pub fn list_tape(tape: &[u32], buffer: &mut [u8]) -> Listed
    ensures put { Put buffer.old 0 (lines_for (accept_outcome tape.now) (steps_of tape.now)) result.written buffer.new }
    ensures number_value { result.number ≡ refusal_number (accept_outcome tape.now) }
{
    match accepting::accept(tape) {
        Err(e) => list_refusal(e, buffer),
        Ok(header) => list_accepted(tape, header, buffer),
    }
}

// The listing into a buffer that can be too short for it. It is made in one that holds every listing, since a refusal leaves the lent
// one as it was.
fn list_short(bytes: &[u8], lines: &mut [u8]) -> Listed
    ensures value { result ≡ listing_answer bytes.now (length lines.old) }
    ensures lines_after { lines.new ≡ listing_buffer bytes.now lines.old }
{
    let mut text = [0u8; MAX_WRITTEN];
    let made = list_bytes(bytes, &mut text);
    let count = made.written;
    if lines.len() < count {
        return Listed {
            written: 0,
            number: u32::from(Refusal::Room),
        };
    }
    put(lines, 0, &text[..count]);
    made
}

// The listing of bytes, from the buffer's start.
fn list_bytes(bytes: &[u8], buffer: &mut [u8]) -> Listed
    ensures put { Put buffer.old 0 (listing_of bytes.now) result.written buffer.new }
    ensures number_value { result.number ≡ listing_number bytes.now }
{
    let mut tape = [0u32; MAX_WORDS];
    let count = tape_words(bytes, &mut tape);
    list_tape(&tape[..count], buffer)
}

// The listing of an accepted tape.
fn list_accepted(tape: &[u32], header: Header, buffer: &mut [u8]) -> Listed
    ensures put { Put buffer.old 0 (lines_for (answered header) (steps_of tape.now)) result.written buffer.new }
    ensures number_value { result.number ≡ 0 }
{
    let mut lines = Buffer::new(buffer);
    first_line(&mut lines, header);
    step_lines(&mut lines, parts::steps(tape));
    Listed {
        written: lines.next,
        number: 0,
    }
}

// The listing of what is refused.
fn list_refusal(e: Refusal, buffer: &mut [u8]) -> Listed
    ensures put { Put buffer.old 0 (refused_line (number_of e)) result.written buffer.new }
    ensures number_value { result.number ≡ number_of e }
{
    let number = u32::from(e);
    let mut line = Buffer::new(buffer);
    refused_line(&mut line, number);
    Listed {
        written: line.next,
        number,
    }
}
