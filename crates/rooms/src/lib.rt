// Places and list into a buffer of the script's room. The whole buffer is printed, so that what a call left of it is seen.
#![tactic(auto)]

ghost use Rattle.std.specs.Prelude.{◌≡◌, [], ◌∷◌, min, ◌≤◌, length, take};
ghost use Rattle.text.specs.Rows.{Put};
ghost use Rattle.encoding.specs.Encoding.{bytes_of};
ghost use Rattle.tool.specs.Verbs.{max_room};
ghost use Rattle.scripting.specs.Script.{max_commanded, places_into, list_into, places_in, list_in};
ghost use Rattle.scripting.specs.States.{capacity_of};

use encoding::{WORD_BYTES, tape_bytes};
use lines::{bytes_line, numbers_line};
use printing::print;
use putting::Buffer;
use scripting::{MAX_ROOM, MAX_TAPES};

// What a byte of a buffer holds before a call.
const HELD: u8 = 255;

// The bytes of as many words as a row of tapes has.
const MAX_TAPE_BYTES: usize = MAX_TAPES * WORD_BYTES;

// The places of the first parameter into a buffer: their count or the refusal, and the buffer.
pub fn places_in(own: u32, values: &[u64], room: usize, text: &mut [u8]) -> usize
    ensures put { Put text.old 0 (places_in (min room max_room) own values.now) result text.new }
    ensures short { length (places_in (min room max_room) own values.now) ≤ max_commanded }
{
    let held = room.min(MAX_ROOM);
    let mut row = [HELD; MAX_ROOM];
    let n = values.first().copied().unwrap_or(0);
    places_into(own, n, &mut row[..held], text)
}

fn places_into(own: u32, n: u64, row: &mut [u8], text: &mut [u8]) -> usize
    requires { length row.old ≤ max_room }
    ensures put { Put text.old 0 (places_into row.old own (n ∷ [])) result text.new }
    ensures short { length (places_into row.old own (n ∷ [])) ≤ max_commanded }
{
    let found = places::places(n, row);
    let next = print(text, own, found).length;
    let mut buffer = Buffer { row: text, next };
    bytes_line(&mut buffer, row);
    buffer.next
}

// The listing of a tape, whose first `MAX_TAPES` words are used, into a buffer: how many bytes were written and its number, and the buffer.
pub fn list_in(tape: &[u32], room: usize, text: &mut [u8]) -> usize
    ensures put { Put text.old 0 (list_in (min room max_room) (take (capacity_of tape.now) tape.now)) result text.new }
    ensures short { length (list_in (min room max_room) (take (capacity_of tape.now) tape.now)) ≤ max_commanded }
{
    let words = tape.len().min(MAX_TAPES);
    let held = room.min(MAX_ROOM);
    let mut bytes = [0u8; MAX_TAPE_BYTES];
    let count = put_words(&mut bytes, &tape[..words]);
    let mut row = [HELD; MAX_ROOM];
    list_into(&bytes[..count], &mut row[..held], text)
}

// The bytes of words, from the row's start.
fn put_words(row: &mut [u8], words: &[u32]) -> usize
    ensures { Put row.old 0 (bytes_of words.now) result row.new }
{
    let mut buffer = Buffer::new(row);
    tape_bytes(&mut buffer, words);
    buffer.next
}

fn list_into(bytes: &[u8], row: &mut [u8], text: &mut [u8]) -> usize
    requires { length row.old ≤ max_room }
    ensures put { Put text.old 0 (list_into row.old bytes.now) result text.new }
    ensures short { length (list_into row.old bytes.now) ≤ max_commanded }
{
    let listed = lister::listing(bytes, row);
    let said = [listed.written as u32, listed.number];
    let mut buffer = Buffer::new(text);
    numbers_line(&mut buffer, &said);
    bytes_line(&mut buffer, row);
    buffer.next
}
