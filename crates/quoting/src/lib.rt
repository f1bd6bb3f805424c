// Words in quotes, put into a lent buffer.
#![tactic(auto)]

ghost use Rattle.std.specs.Prelude.{◌≡◌, ◌<◌};
ghost use Rattle.text.specs.Quoting.{hex_digit, is_plain, escaped, escapes, quoted};
ghost use Rattle.putting.specs.Buffers.{Puts};

use putting::Buffer;

const QUOTE: u8 = 34;

const BACKSLASH: u8 = 92;

// So many bytes of a word are shown.
const SHOWN: usize = 64;

// Puts a word in quotes, cut where it is long, each byte that has no glyph by its number.
pub fn put_quoted(buffer: &mut Buffer, word: &[u8])
    ensures { Puts buffer.old (quoted word.now) buffer.new }
{
    buffer.put_byte(QUOTE);
    put_escapes(buffer, &word[..SHOWN.min(word.len())]);
    if SHOWN < word.len() {
        buffer.put(b"...");
    }
    buffer.put_byte(QUOTE);
}

// Puts bytes, each escaped where it isn't plain.
fn put_escapes(buffer: &mut Buffer, bytes: &[u8])
    ensures { Puts buffer.old (escapes bytes.now) buffer.new }
{
    for byte in bytes {
        put_escaped(buffer, *byte);
    }
}

// Puts a byte as itself, or by its number in two hexadecimal digits.
fn put_escaped(buffer: &mut Buffer, byte: u8)
    ensures { Puts buffer.old (escaped byte) buffer.new }
{
    if is_plain(byte) {
        return buffer.put_byte(byte);
    }
    buffer.put(&[BACKSLASH, b'x', hex_digit(byte / 16), hex_digit(byte % 16)]);
}

// Whether a byte has a glyph or is a blank, and isn't one of the two that quoting uses.
#[tactic(auto, unfolding(text::specs::Quoting::is_plain))]
fn is_plain(byte: u8) -> bool
    ensures { result ≡ is_plain byte }
{
    32 <= byte && byte <= 126 && byte != QUOTE && byte != BACKSLASH
}

// A digit below 16.
#[tactic(auto, unfolding(text::specs::Quoting::hex_digit))]
fn hex_digit(digit: u8) -> u8
    requires { digit < 16 }
    ensures { result ≡ hex_digit digit }
{
    match digit {
        0..=9 => b'0' + digit,
        _ => b'a' + (digit - 10),
    }
}
