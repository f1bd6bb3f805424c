// Scripts from standard input: read piece by piece, done line by line.
#![tactic(auto)]

ghost use Rattle.std.specs.Prelude.{◌≡◌, ◌≤◌, length, take};
ghost use Rattle.scripting.specs.Script.{max_printed, line_done};
ghost use Rattle.scripting.specs.States.{capacity_of, state_in, inside_of};

use script::line;
use scripting::{MAX_PRINTED, MAX_TAPES, Marks, Printed, START};
use streams::{Told, read_piece, write_output};
use text::NEWLINE;

// A line is held with one byte more than it may have.
const LINE_BYTES: usize = 4096;

// The bytes that are read at a time.
const PIECE_BYTES: usize = 65536;

// A script has at most so many pieces, which is far above any use: a program ends on every input.
const MAX_PIECES: u64 = 1099511627776;

// A script that is being read: the line so far, and what the lines before it left.
#[derive(Drop)]
struct Reading {
    held: [u8; LINE_BYTES],
    used: usize,
    tapes: [u32; MAX_TAPES],
    marks: Marks,
    ghost held_within: { used ≤ 4096 },
}

// Reads a script from standard input, and prints what each line comes to. Where a write failed, nothing more is done.
pub fn run_script(rt: HostRuntime) {
    let mut script = Reading {
        held: [0; LINE_BYTES],
        used: 0,
        tapes: [0; MAX_TAPES],
        marks: START,
    };
    let _told = script.take_input(rt);
}

impl Reading {
    // Standard input, piece by piece. The last line may have no end.
    fn take_input(&mut self, rt: HostRuntime) -> Result<(), Told> {
        let mut piece = [0u8; PIECE_BYTES];
        for _ in 0..MAX_PIECES {
            let count = read_piece(rt, &mut piece)?;
            if count == 0 {
                break;
            }
            self.take_piece(rt, &piece[..count])?;
        }
        if self.used == 0 {
            return Ok(());
        }
        self.end_line(rt)
    }

    // Every byte of a piece.
    fn take_piece(&mut self, rt: HostRuntime, piece: &[u8]) -> Result<(), Told> {
        for byte in piece {
            self.take_byte(rt, *byte)?;
        }
        Ok(())
    }

    // A byte of a line. One that the row has no room for is let pass: the line is too long already.
    fn take_byte(&mut self, rt: HostRuntime, byte: u8) -> Result<(), Told> {
        if byte == NEWLINE {
            return self.end_line(rt);
        }
        if self.used < LINE_BYTES {
            self.held[self.used] = byte;
            self.used += 1;
        }
        Ok(())
    }

    // Does the line and prints what it comes to. The next line begins with nothing held, whether the text was taken or not.
    fn end_line(&mut self, rt: HostRuntime) -> Result<(), Told>
        ensures { self.new.used ≡ 0 }
    {
        let mut text = [0u8; MAX_PRINTED];
        let printed = whole_line(
            &self.held[..self.used],
            &mut self.tapes,
            self.marks,
            &mut text,
        );
        self.used = 0;
        self.marks = printed.marks;
        write_output(rt, &text[..printed.length])
    }
}

// The line in a row that nothing it prints is too long for: nothing of it is dropped.
fn whole_line(held: &[u8], tapes: &mut [u32], marks: Marks, text: &mut [u8]) -> Printed
    requires { max_printed ≤ length text.old }
    ensures text_after { take result.length text.new ≡ (line_done (capacity_of tapes.old) held.now (state_in (inside_of marks (capacity_of tapes.old)) tapes.old)).text }
    ensures length_in_bounds { result.length ≤ length text.new }
{
    line(held, tapes, marks, text)
}
