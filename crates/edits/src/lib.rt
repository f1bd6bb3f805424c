// The verbs that only a script has: they change the tape at hand, and the room.
#![tactic(auto)]

ghost use Rattle.std.specs.Prelude.{◌≡◌, [], ◌++◌, ◌+◌, ◌-◌, ◌≤◌, length, take, drop};
ghost use Rattle.text.specs.Text.{number_line};
ghost use Rattle.text.specs.Rows.{Put};
ghost use Rattle.tool.specs.Verbs.{max_room, largest32, limit_in};
ghost use Rattle.tool.specs.Inner.Held.{held_to};
ghost use Rattle.scripting.specs.Script.{edited, in_script};
ghost use Rattle.scripting.specs.States.{capacity_of, state_in, Inside, inside_of, Did};
ghost use Rattle.scripting.specs.Inner.Leaving.{Placed};

use lines::number_line;
use putting::{Buffer, put};
use scripting::{MAX_ROOM, MAX_TAPES, Marks, Printed};
use tape_row::{inside, put_full};
use text::NEWLINE;
use tool::ScriptVerb;
use widths::{small, words};

// A verb on its parameters, of which none counts for more than the verb can do with. Of the row of tapes the first `MAX_TAPES` words are
// used, and the marks are brought into them.
pub fn edit(
    verb: ScriptVerb,
    values: &[u64],
    tapes: &mut [u32],
    marks: Marks,
    text: &mut [u8],
) -> Printed
    ensures did { Did (in_script (capacity_of tapes.old) verb (held_to (limit_in verb) values.now) (state_in (inside_of marks (capacity_of tapes.old)) tapes.old)) text.old result (take (capacity_of tapes.old) tapes.new) text.new }
    ensures tapes_unchanged { drop (capacity_of tapes.old) tapes.new ≡ drop (capacity_of tapes.old) tapes.old }
{
    let capacity = tapes.len().min(MAX_TAPES);
    edit_inside(
        verb,
        values,
        &mut tapes[..capacity],
        inside(marks, capacity),
        text,
    )
}

fn edit_inside(
    verb: ScriptVerb,
    values: &[u64],
    tapes: &mut [u32],
    marks: Marks,
    text: &mut [u8],
) -> Printed
    requires { Inside marks tapes.old }
    ensures { Did (in_script (length tapes.old) verb (held_to (limit_in verb) values.now) (state_in marks tapes.old)) text.old result tapes.new text.new }
{
    match verb {
        ScriptVerb::Tape => put_words(values, tapes, marks, marks.begin, text),
        ScriptVerb::Append => put_words(values, tapes, marks, marks.end, text),
        ScriptVerb::Change => change(values, tapes, marks, text),
        ScriptVerb::Drop => drop_words(values, tapes, marks, text),
        ScriptVerb::Behind => behind(tapes, marks, text),
        ScriptVerb::Room => room(values, tapes, marks, text),
    }
}

// The tape at hand keeps its words up to `at`, and has the given ones behind them.
fn put_words(values: &[u64], tapes: &mut [u32], marks: Marks, at: usize, text: &mut [u8]) -> Printed
    requires { Placed marks tapes.old at }
    ensures { Did (edited (length tapes.old) (state_in marks tapes.old) (drop marks.begin (take at tapes.old) ++ held_to largest32 values.now)) text.old result tapes.new text.new }
{
    if tapes.len() - at < values.len() {
        return Printed {
            marks,
            length: put_full(text, tapes.len()),
        };
    }
    words(values, tapes, at);
    let next = Marks {
        end: at + values.len(),
        ..marks
    };
    count_words(next, text)
}

// How many words the tape at hand has.
fn count_words(marks: Marks, text: &mut [u8]) -> Printed
    requires { marks.begin ≤ marks.end }
    ensures { (result.marks ≡ marks) × Put text.old 0 (number_line (marks.end - marks.begin)) result.length text.new }
{
    let mut line = Buffer::new(text);
    number_line(&mut line, (marks.end - marks.begin) as u64);
    Printed {
        marks,
        length: line.next,
    }
}

// One word of the tape at hand.
fn change(values: &[u64], tapes: &mut [u32], marks: Marks, text: &mut [u8]) -> Printed
    requires { Inside marks tapes.old }
    ensures { Did (in_script (length tapes.old) ScriptVerb.Change (held_to largest32 values.now) (state_in marks tapes.old)) text.old result tapes.new text.new }
{
    let index = small(values, 0) as usize;
    if marks.end - marks.begin <= index {
        return Printed {
            marks,
            length: put(text, 0, b"fibexp: no such word in the tape\n"),
        };
    }
    let at = marks.begin + index;
    tapes[at] = small(values, 1);
    count_words(marks, text)
}

// The tape at hand without its last words.
fn drop_words(values: &[u64], tapes: &[u32], marks: Marks, text: &mut [u8]) -> Printed
    requires { Inside marks tapes.now }
    ensures { Did (in_script (length tapes.now) ScriptVerb.Drop (held_to largest32 values.now) (state_in marks tapes.now)) text.old result tapes.now text.new }
{
    let count = (small(values, 0) as usize).min(marks.end - marks.begin);
    let next = Marks {
        end: marks.end - count,
        ..marks
    };
    count_words(next, text)
}

// Another tape behind this one, of no words.
fn behind(tapes: &[u32], marks: Marks, text: &mut [u8]) -> Printed
    requires { Inside marks tapes.now }
    ensures { Did (in_script (length tapes.now) ScriptVerb.Behind [] (state_in marks tapes.now)) text.old result tapes.now text.new }
{
    let next = Marks {
        begin: marks.end,
        ..marks
    };
    count_words(next, text)
}

// The room from now on; without a parameter, none.
fn room(values: &[u64], tapes: &[u32], marks: Marks, text: &mut [u8]) -> Printed
    requires { Inside marks tapes.now }
    ensures { Did (in_script (length tapes.now) ScriptVerb.Room (held_to max_room values.now) (state_in marks tapes.now)) text.old result tapes.now text.new }
{
    let Some(first) = values.first() else {
        return Printed {
            marks: Marks {
                room: None,
                ..marks
            },
            length: put(text, 0, &[NEWLINE]),
        };
    };
    let room = (*first as usize).min(MAX_ROOM);
    let mut line = Buffer::new(text);
    number_line(&mut line, room as u64);
    Printed {
        marks: Marks {
            room: Some(room),
            ..marks
        },
        length: line.next,
    }
}
