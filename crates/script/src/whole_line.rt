// A line by what it is: too long, copied, one that says what its reply is, or a command line.
ghost use Rattle.std.specs.Prelude.{◌+◌, ◌≤◌, ◌<◌, length, take, drop};
ghost use Rattle.scripting.specs.Script.{judged, max_line, command_done, line_done};
ghost use Rattle.scripting.specs.States.{state_in, Inside, Did, DidLine};

use crate::commands::commanded;
use judging::{equals_in, is_copied, put_judged, to_arguments};
use putting::{Buffer, put};
use scripting::{MAX_LINE, MAX_PRINTED, Marks, Printed};
use text::NEWLINE;

// Does a line.
pub(crate) fn done(line: &[u8], tapes: &mut [u32], marks: Marks, text: &mut [u8]) -> Printed
    requires { Inside marks tapes.old }
    ensures { DidLine (line_done (length tapes.old) line.now (state_in marks tapes.old)) text.old result tapes.new text.new }
{
    if MAX_LINE < line.len() {
        let length = put(text, 0, b"fibexp: a line of more than 4095 bytes\n");
        return Printed { marks, length };
    }
    if is_copied(line) {
        let mut copy = Buffer::new(text);
        copy.put_then(line, NEWLINE);
        return Printed {
            marks,
            length: copy.next,
        };
    }
    let at = equals_in(line);
    if at < line.len() {
        return judge(line, at, tapes, marks, text);
    }
    command(line, tapes, marks, text)
}

// A command line up to `at`, and what its reply is said to be.
fn judge(line: &[u8], at: usize, tapes: &mut [u32], marks: Marks, text: &mut [u8]) -> Printed
    requires inside { Inside marks tapes.old }
    requires at_in_bounds { (at < length line.now) × (length line.now ≤ max_line) }
    ensures { DidLine (judged (command_done (length tapes.old) (take at line.now) (state_in marks tapes.old)) (drop (at + 3) line.now)) text.old result tapes.new text.new }
{
    let mut space = [0u8; MAX_PRINTED];
    let made = command(&line[..at], tapes, marks, &mut space);
    Printed {
        length: put_judged(text, &space[..made.length], line, at),
        ..made
    }
}

fn command(line: &[u8], tapes: &mut [u32], marks: Marks, text: &mut [u8]) -> Printed
    requires inside { Inside marks tapes.old }
    requires line_len_bound { length line.now ≤ max_line }
    ensures { Did (command_done (length tapes.old) line.now (state_in marks tapes.old)) text.old result tapes.new text.new }
{
    let mut row = [0u8; MAX_LINE];
    let count = to_arguments(line, &mut row);
    commanded(&row[..count], tapes, marks, text)
}
