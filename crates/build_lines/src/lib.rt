// Build in a script, which leaves its tape at hand: it prints the tape's words, or, in a room, the whole buffer that it got, so that what it left
// of it is seen.
#![tactic(auto)]

ghost use Rattle.std.specs.Prelude.{◌≡◌, ◌++◌, ◌≤◌, length, take, drop};
ghost use Rattle.refusal.specs.Outcomes.{outcome_of};
ghost use Rattle.text.specs.Text.{number_line, numbers_line};
ghost use Rattle.tape.specs.Layout.{max_words};
ghost use Rattle.tool.specs.Verbs.{largest32, max_room};
ghost use Rattle.tool.specs.Replies.{printed};
ghost use Rattle.tool.specs.Inner.Held.{held_to};
ghost use Rattle.scripting.specs.Script.{with_tape, built_as, build_into, build_line, build_in, build_by};
ghost use Rattle.scripting.specs.States.{room_in, state_in, Inside, capacity_of, inside_of, count_in, Did};
ghost use Rattle.scripting.specs.Inner.Leaving.{ShortRow, WrittenRow};

use lines::{number_line, numbers_line};
use printing::refuse;
use putting::{Buffer, put};
use refusal::Refusal;
use scripting::{MAX_ROOM, MAX_TAPES, Marks, Printed};
use tape::MAX_WORDS;
use tape_row::{inside, put_full};
use widths::small;

// What a word of a buffer holds before a call.
const HELD: u32 = 255;

// Build on its parameters, of which none counts for more than 32 bits. Of the row of tapes the first `MAX_TAPES` words are used, and the
// marks are brought into them.
pub fn build(own: u32, values: &[u64], tapes: &mut [u32], marks: Marks, text: &mut [u8]) -> Printed
    ensures did { Did (build_by (capacity_of tapes.old) (room_in (inside_of marks (capacity_of tapes.old))) own (held_to largest32 values.now) (state_in (inside_of marks (capacity_of tapes.old)) tapes.old)) text.old result (take (capacity_of tapes.old) tapes.new) text.new }
    ensures tapes_unchanged { drop (capacity_of tapes.old) tapes.new ≡ drop (capacity_of tapes.old) tapes.old }
{
    let capacity = tapes.len().min(MAX_TAPES);
    build_inside(
        own,
        values,
        &mut tapes[..capacity],
        inside(marks, capacity),
        text,
    )
}

// In a room or not.
fn build_inside(
    own: u32,
    values: &[u64],
    tapes: &mut [u32],
    marks: Marks,
    text: &mut [u8],
) -> Printed
    requires { Inside marks tapes.old }
    ensures { Did (build_by (length tapes.old) (room_in marks) own (held_to largest32 values.now) (state_in marks tapes.old)) text.old result tapes.new text.new }
{
    match marks.room {
        Some(room) => build_in(own, values, room, tapes, marks, text),
        None => build_line(own, values, tapes, marks, text),
    }
}

// Build's tape at hand, and its words.
fn build_line(own: u32, values: &[u64], tapes: &mut [u32], marks: Marks, text: &mut [u8]) -> Printed
    requires { Inside marks tapes.old }
    ensures { Did (build_line (length tapes.old) own (held_to largest32 values.now) (state_in marks tapes.old)) text.old result tapes.new text.new }
{
    let mut row = [0u32; MAX_WORDS];
    let p = small(values, 0);
    let r = small(values, 1);
    let k = small(values, 2);
    let answer = building::build(p, r, k, small(values, 3), &mut row);
    built(own, answer, &row, tapes, marks, text)
}

// What build answered: the words that it counts, or the refusal.
fn built(
    own: u32,
    answer: Result<u64, Refusal>,
    row: &[u32],
    tapes: &mut [u32],
    marks: Marks,
    text: &mut [u8],
) -> Printed
    requires { WrittenRow max_words marks tapes.old row.now answer }
    ensures { Did (built_as (length tapes.old) (state_in marks tapes.old) (outcome_of answer) (take (count_in answer) row.now) (printed own (outcome_of answer) number_line).text (numbers_line (take (count_in answer) row.now))) text.old result tapes.new text.new }
{
    match answer {
        Ok(n) => {
            let count = n as usize;
            leave(&row[..count], tapes, marks, text)
        }
        Err(e) => Printed {
            marks,
            length: refuse(text, own, u32::from(e)).length,
        },
    }
}

// Words that are the tape at hand from now on, printed.
fn leave(words: &[u32], tapes: &mut [u32], marks: Marks, text: &mut [u8]) -> Printed
    requires { ShortRow max_words marks tapes.old words.now }
    ensures { Did (with_tape (length tapes.old) (state_in marks tapes.old) words.now (numbers_line words.now)) text.old result tapes.new text.new }
{
    let begin = marks.begin;
    if tapes.len() - begin < words.len() {
        return Printed {
            marks,
            length: put_full(text, tapes.len()),
        };
    }
    let end = put(tapes, begin, words);
    let mut line = Buffer::new(text);
    numbers_line(&mut line, words);
    Printed {
        marks: Marks { end, ..marks },
        length: line.next,
    }
}

// Build into a buffer: the count of words or the refusal, and the buffer. Its tape is at hand then.
fn build_in(
    own: u32,
    values: &[u64],
    room: usize,
    tapes: &mut [u32],
    marks: Marks,
    text: &mut [u8],
) -> Printed
    requires inside { Inside marks tapes.old }
    requires room_in_bounds { room ≤ max_room }
    ensures { Did (build_in (length tapes.old) room own (held_to largest32 values.now) (state_in marks tapes.old)) text.old result tapes.new text.new }
{
    let mut row = [HELD; MAX_ROOM];
    build_into(own, values, &mut row[..room], tapes, marks, text)
}

fn build_into(
    own: u32,
    values: &[u64],
    row: &mut [u32],
    tapes: &mut [u32],
    marks: Marks,
    text: &mut [u8],
) -> Printed
    requires { ShortRow max_room marks tapes.old row.old }
    ensures { Did (build_into (length tapes.old) row.old own (held_to largest32 values.now) (state_in marks tapes.old)) text.old result tapes.new text.new }
{
    let p = small(values, 0);
    let r = small(values, 1);
    let k = small(values, 2);
    let answer = building::build(p, r, k, small(values, 3), row);
    show(own, answer, row, tapes, marks, text)
}

// What build answered, and its buffer, whose words are the tape at hand where it answered.
fn show(
    own: u32,
    answer: Result<u64, Refusal>,
    row: &[u32],
    tapes: &mut [u32],
    marks: Marks,
    text: &mut [u8],
) -> Printed
    requires { WrittenRow max_room marks tapes.old row.now answer }
    ensures { Did (built_as (length tapes.old) (state_in marks tapes.old) (outcome_of answer) (take (count_in answer) row.now) ((printed own (outcome_of answer) number_line).text ++ numbers_line row.now) ((printed own (outcome_of answer) number_line).text ++ numbers_line row.now)) text.old result tapes.new text.new }
{
    match answer {
        Ok(n) => {
            let count = n as usize;
            let begin = marks.begin;
            if tapes.len() - begin < count {
                return Printed {
                    marks,
                    length: put_full(text, tapes.len()),
                };
            }
            let end = put(tapes, begin, &row[..count]);
            let mut lines = Buffer::new(text);
            number_line(&mut lines, n);
            numbers_line(&mut lines, row);
            Printed {
                marks: Marks { end, ..marks },
                length: lines.next,
            }
        }
        Err(e) => {
            let next = refuse(text, own, u32::from(e)).length;
            let mut lines = Buffer { row: text, next };
            numbers_line(&mut lines, row);
            Printed {
                marks,
                length: lines.next,
            }
        }
    }
}
