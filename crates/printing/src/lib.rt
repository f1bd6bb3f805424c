// Replies into a lent buffer: what the services answer and refuse.
#![tactic(auto)]

mod results;

ghost use Rattle.std.specs.Prelude.{List, [], ◌∷◌, ◌++◌, ℕ, ◌≤◌, length};
ghost use Rattle.refusal.specs.Outcomes.{outcome_of};
ghost use Rattle.text.specs.Text.{newline};
ghost use Rattle.putting.specs.Buffers.{Puts};
ghost use Rattle.tool.specs.Texts.{reason_for};
ghost use Rattle.tool.specs.Replies.{answers, refuses, printed};
ghost use Rattle.tool.specs.Rows.{Told, max_text};

use parsing::nth_word;
use putting::Buffer;
use refusal::{OWN_REASONS, REASONS, Refusal};
pub use results::Power;
use text::NEWLINE;
use tool::{ANSWERED, REFUSED, Reply};

// A refusal, with what it is given for.
pub fn refuse(buffer: &mut [u8], own: u32, number: u32) -> Reply
    ensures { Told buffer.old (refuses own number) result buffer.new }
{
    let mut line = Buffer::new(buffer);
    line.put(b"fibexp: refused ");
    line.put_number(number as u64);
    line.put(b": ");
    put_reason(&mut line, own, number);
    Reply {
        status: REFUSED,
        length: line.next,
    }
}

// What a refusal is given for, and the end of the line.
fn put_reason(buffer: &mut Buffer, own: u32, number: u32)
    ensures { Puts buffer.old (reason_for own number ++ newline ∷ []) buffer.new }
{
    if number == own {
        return buffer.put_then(nth_word(&OWN_REASONS, number as usize), NEWLINE);
    }
    buffer.put_then(nth_word(&REASONS, number as usize), NEWLINE);
}

// The answer of a service, which is put as lines.
pub trait Shown: Sized {
    ghost text: { Self → List ℕ };

    fn put(self, lines: &mut Buffer)
        ensures put { Puts lines.old (text self) lines.new }
        ensures short { length (text self) ≤ max_text };
}

// An answer as it is shown.
pub fn show<T: Shown>(buffer: &mut [u8], value: T) -> Reply
    ensures { Told buffer.old (answers (T.text value)) result buffer.new }
{
    let mut lines = Buffer::new(buffer);
    value.put(&mut lines);
    Reply {
        status: ANSWERED,
        length: lines.next,
    }
}

// What a service answers, or the refusal.
pub fn print<T: Shown>(buffer: &mut [u8], own: u32, answer: Result<T, Refusal>) -> Reply
    ensures { Told buffer.old (printed own (outcome_of answer) T.text) result buffer.new }
{
    match answer {
        Ok(value) => show(buffer, value),
        Err(e) => refuse(buffer, own, u32::from(e)),
    }
}
