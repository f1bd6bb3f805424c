// A script: command lines one after another, with a row of tapes kept between them.
#![tactic(auto)]

mod commands;
mod whole_line;

ghost use Rattle.std.specs.Prelude.{◌≡◌, take, drop};
ghost use Rattle.scripting.specs.Script.{line_done};
ghost use Rattle.scripting.specs.States.{capacity_of, state_in, inside_of, DidLine};

use scripting::{MAX_TAPES, Marks, Printed};
use tape_row::inside;
use whole_line::done;

// Does a line on a row of tapes, of which the first `MAX_TAPES` words are used. What it prints is put from the start of its row; in a
// row of `MAX_PRINTED` bytes or more it stands whole.
pub fn line(line: &[u8], tapes: &mut [u32], marks: Marks, text: &mut [u8]) -> Printed
    ensures did_line { DidLine (line_done (capacity_of tapes.old) line.now (state_in (inside_of marks (capacity_of tapes.old)) tapes.old)) text.old result (take (capacity_of tapes.old) tapes.new) text.new }
    ensures tapes_unchanged { drop (capacity_of tapes.old) tapes.new ≡ drop (capacity_of tapes.old) tapes.old }
{
    let capacity = tapes.len().min(MAX_TAPES);
    done(line, &mut tapes[..capacity], inside(marks, capacity), text)
}
