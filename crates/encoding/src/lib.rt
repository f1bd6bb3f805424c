// A tape as bytes: the one way from bytes to words and back.
#![tactic(auto)]

ghost use Rattle.std.specs.Prelude.{◌/◌, ◌≤◌, length};
ghost use Rattle.text.specs.Rows.{Put};
ghost use Rattle.putting.specs.Buffers.{Puts};
ghost use Rattle.encoding.specs.Encoding.{bytes_of, tape_of, tape_in};

use putting::Buffer;
use tape::MAX_WORDS;

// The bytes of a word.
pub const WORD_BYTES: usize = 4;

// The most bytes of a tape.
pub const MAX_BYTES: usize = WORD_BYTES * MAX_WORDS;

// The words of a tape that is given as bytes, from the buffer's start: how many they are. Bytes that are no tape give none, and a tape
// of no words gets refusal 6 from every service on a tape.
pub fn tape_words(bytes: &[u8], buffer: &mut [u32; MAX_WORDS]) -> usize
    ensures { Put buffer.old 0 (tape_in bytes.now) result buffer.new }
{
    if MAX_BYTES < bytes.len() {
        return 0;
    }
    if bytes.len() % WORD_BYTES != 0 {
        return 0;
    }
    words(bytes, buffer)
}

// Writes the words from the buffer's start, and answers how many they are; up to three bytes left over are no word.
fn words(bytes: &[u8], buffer: &mut [u32]) -> usize
    requires { length bytes.now / 4 ≤ length buffer.old }
    ensures { Put buffer.old 0 (tape_of bytes.now) result buffer.new }
{
    let (words, _) = bytes.as_chunks::<WORD_BYTES>();
    for (i, word) in words.iter().enumerate() {
        buffer[i] = u32::from_le_bytes(*word);
    }
    words.len()
}

// Puts the bytes of words, least significant first.
pub fn tape_bytes(buffer: &mut Buffer, words: &[u32])
    ensures { Puts buffer.old (bytes_of words.now) buffer.new }
{
    for word in words {
        buffer.put(&word.to_le_bytes());
    }
}
