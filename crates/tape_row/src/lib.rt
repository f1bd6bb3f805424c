// The row of tapes of a script: marks brought into it, and what is said where it is full.
#![tactic(auto)]

ghost use Rattle.std.specs.Prelude.{◌≡◌};
ghost use Rattle.text.specs.Rows.{Put};
ghost use Rattle.scripting.specs.Script.{full_line};
ghost use Rattle.scripting.specs.States.{inside_of};

use putting::Buffer;
use scripting::{MAX_ROOM, Marks};
use text::NEWLINE;

// Marks that stand in the row.
#[tactic(auto, unfolding(scripting::specs::States::inside_of))]
pub fn inside(marks: Marks, capacity: usize) -> Marks
    ensures { result ≡ inside_of marks capacity }
{
    let end = marks.end.min(capacity);
    Marks {
        begin: marks.begin.min(end),
        end,
        room: marks.room.map(|room| room.min(MAX_ROOM)),
    }
}

// The row of tapes has no room for more.
pub fn put_full(text: &mut [u8], capacity: usize) -> usize
    ensures { Put text.old 0 (full_line capacity) result text.new }
{
    let mut line = Buffer::new(text);
    line.put(b"fibexp: a row of tapes has at most ");
    line.put_number(capacity as u64);
    line.put_then(b" words", NEWLINE);
    line.next
}
