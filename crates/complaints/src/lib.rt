// What is said of a command line that isn't understood. Each public function puts its line from the buffer's start, and answers how many bytes it put.
#![tactic(auto)]

ghost use Rattle.text.specs.Rows.{Put};
ghost use Rattle.putting.specs.Buffers.{Puts};
ghost use Rattle.tool.specs.Texts.{no_verb_line, from_text, count_text, wrong_count_line, unread_line, usage};

use putting::{Buffer, put};
use quoting::put_quoted;
use text::NEWLINE;
use tool::{NO_VARIANT, Row, USAGE};
use verbs::is_variant;

const TOOL: &[u8] = b"fibexp: ";

// Every verb, a line each.
pub fn put_usage(buffer: &mut [u8]) -> usize
    ensures { Put buffer.old 0 usage result buffer.new }
{
    put(buffer, 0, &USAGE)
}

// A verb that is none.
pub fn put_no_verb(buffer: &mut [u8], word: &[u8]) -> usize
    ensures { Put buffer.old 0 (no_verb_line word.now) result buffer.new }
{
    let mut line = Buffer::new(buffer);
    line.put(TOOL);
    put_quoted(&mut line, word);
    line.put_then(b": no such verb; fibexp help lists them", NEWLINE);
    line.next
}

// A count of parameters that the verb doesn't take.
pub fn put_wrong_count(buffer: &mut [u8], name: &[u8], verb: Row, given: usize) -> usize
    ensures { Put buffer.old 0 (wrong_count_line name.now verb given) result buffer.new }
{
    let mut line = Buffer::new(buffer);
    line.put(TOOL);
    line.put(name);
    line.put(b" takes ");
    put_count(&mut line, verb.least, verb.most);
    line.put(b", ");
    line.put_number(given as u64);
    line.put_then(b" given", NEWLINE);
    line.next
}

// How many parameters a verb takes.
fn put_count(buffer: &mut Buffer, least: usize, most: usize)
    ensures { Puts buffer.old (count_text least most) buffer.new }
{
    put_from(buffer, least, most);
    buffer.put_number(most as u64);
    if most == 1 {
        return buffer.put(b" parameter");
    }
    buffer.put(b" parameters");
}

// The least count and "to", where there are several.
fn put_from(buffer: &mut Buffer, least: usize, most: usize)
    ensures { Puts buffer.old (from_text least most) buffer.new }
{
    if least == most {
        return;
    }
    buffer.put_number(least as u64);
    buffer.put(b" to ");
}

// A word that isn't read as the parameter of its place.
pub fn put_unread(buffer: &mut [u8], word: &[u8], verb: Row, place: usize) -> usize
    ensures { Put buffer.old 0 (unread_line word.now verb place) result buffer.new }
{
    let mut line = Buffer::new(buffer);
    line.put(TOOL);
    put_quoted(&mut line, word);
    if is_variant(Some(verb.verb), place) {
        line.put_then(&NO_VARIANT, NEWLINE);
        return line.next;
    }
    line.put(b": not a whole number from 0 to ");
    line.put_number_then(verb.largest, NEWLINE);
    line.next
}
