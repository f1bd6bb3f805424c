// Numbers and words read from bytes.
#![tactic(auto)]

mod numbers;
mod words;

ghost use Rattle.std.specs.Prelude.{◌≡◌, [], length, get_or};
ghost use Rattle.text.specs.Reading.{parse_number, split_words};

use numbers::in_base;
use words::split_word;

// Reads a whole number: hexadecimal digits behind `0x`, or decimal ones; one or more, nothing else, and none above `most`.
pub fn parse_number(text: &[u8], most: u64) -> Option<u64>
    ensures { result ≡ parse_number most text.now }
{
    match text.strip_prefix(b"0x") {
        Some(digits) => in_base(digits, most, 16),
        None => in_base(text, most, 10),
    }
}

// How many words arguments have.
pub fn word_count(arguments: &[u8]) -> usize
    ensures { result ≡ length (split_words arguments.now) }
{
    let mut count: usize = 0;
    let mut rest = arguments;
    while !rest.is_empty() {
        (_, rest) = split_word(rest);
        count += 1;
    }
    count
}

// The word of an index, from 0; the empty one past the last.
pub fn nth_word(arguments: &[u8], index: usize) -> &[u8]
    ensures { result.now ≡ get_or (split_words arguments.now) index [] }
{
    let mut rest = arguments;
    for _ in 0..index {
        if rest.is_empty() {
            return rest;
        }
        (_, rest) = split_word(rest);
    }
    let (word, _) = split_word(rest);
    word
}
