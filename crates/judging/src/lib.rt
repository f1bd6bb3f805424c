// A line of a script as bytes: whether it is copied, where it says what its reply is, the verdict on that, and a command line's arguments.
#![tactic(auto)]

ghost use Rattle.std.specs.Prelude.{◌≡◌, [], ◌∷◌, ◌++◌, ◌+◌, ◌<◌, length, drop};
ghost use Rattle.text.specs.Text.{newline};
ghost use Rattle.text.specs.Rows.{Put};
ghost use Rattle.putting.specs.Buffers.{Puts};
ghost use Rattle.program.specs.Same.{same_words};
ghost use Rattle.scripting.specs.Script.{arguments_of, is_equals, equals_in, is_copied, verdict};

use putting::Buffer;
use text::{BLANK, NEWLINE};

const HASH: u8 = b'#';

const EQUALS: u8 = b'=';

// The bytes of a blank, an equals sign and a blank.
const EQUALS_BYTES: usize = 3;

// An empty line, or one that begins with #.
pub fn is_copied(line: &[u8]) -> bool
    ensures { result ≡ is_copied line.now }
{
    matches!(line, [] | [HASH, ..])
}

// Where a blank, an equals sign and a blank first stand; past the line, where they don't.
pub fn equals_in(line: &[u8]) -> usize
    ensures { result ≡ equals_in line.now }
{
    let mut i: usize = 0;
    while i < line.len() {
        if is_equals(line, i) {
            return i;
        }
        i += 1;
    }
    i
}

fn is_equals(line: &[u8], at: usize) -> bool
    requires { at < length line.now }
    ensures { result ≡ is_equals (drop at line.now) }
{
    if line.len() - at < EQUALS_BYTES {
        return false;
    }
    if line[at] != BLANK {
        return false;
    }
    if line[at + 1] != EQUALS {
        return false;
    }
    line[at + 2] == BLANK
}

// What was printed, and whether it is what the line says past its equals sign at `at`.
pub fn put_judged(text: &mut [u8], printed: &[u8], line: &[u8], at: usize) -> usize
    ensures { Put text.old 0 (printed.now ++ verdict printed.now (drop (at + 3) line.now)) result text.new }
{
    let mut buffer = Buffer::new(text);
    buffer.put(printed);
    put_verdict(&mut buffer, printed, past_equals(line, at));
    buffer.next
}

// What stands past an equals sign and its blanks.
fn past_equals(line: &[u8], at: usize) -> &[u8]
    ensures { result.now ≡ drop (at + 3) line.now }
{
    line.get(at.saturating_add(EQUALS_BYTES)..).unwrap_or(&[])
}

// Whether what was printed is what was said.
fn put_verdict(buffer: &mut Buffer, printed: &[u8], said: &[u8])
    ensures { Puts buffer.old (verdict printed.now said.now) buffer.new }
{
    buffer.put(b"= ");
    buffer.put(said);
    if is_line(printed, said) {
        return buffer.put_then(b": yes", NEWLINE);
    }
    buffer.put_then(b": no", NEWLINE);
}

// A text is a line and its end.
fn is_line(text: &[u8], line: &[u8]) -> bool
    ensures { result ≡ same_words text.now (line.now ++ newline ∷ []) }
{
    let length = line.len();
    if text.len() <= length {
        return false;
    }
    if text.len() - length != 1 {
        return false;
    }
    if text[length] != NEWLINE {
        return false;
    }
    check::same(&text[..length], line)
}

// A line as arguments, as many of its bytes as the row has room for: a zero byte for each blank.
pub fn to_arguments(line: &[u8], row: &mut [u8]) -> usize
    ensures { Put row.old 0 (arguments_of line.now) result row.new }
{
    for (place, byte) in line.iter().enumerate() {
        if row.len() <= place {
            return place;
        }
        row[place] = if *byte == BLANK { 0 } else { *byte };
    }
    line.len()
}
