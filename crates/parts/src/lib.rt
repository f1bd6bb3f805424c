// Parts of a tape, and of a row of tapes.
#![tactic(auto)]

ghost use Rattle.std.specs.Prelude.{◌≡◌};
ghost use Rattle.tape.specs.Layout.{step_index, step_words_of, part};

use tape::{HEADER_WORDS, OTHER_WORDS};

// The words of a tape's steps, as a part of it.
pub fn steps(tape: &[u32]) -> &[u32]
    ensures { result.now ≡ step_words_of tape.now }
{
    match tape {
        [_, _, _, _, steps @ .., _] => steps,
        _ => &[],
    }
}

// The index of the word of the step numbered position + 1.
pub fn step_index(tape: &[u32], position: u32) -> usize
    ensures { result ≡ step_index tape.now position }
{
    HEADER_WORDS + position as usize
}

// The words of the steps numbered first + 1 to last, as a part of the tape.
pub fn step_words(tape: &[u32], first: u32, last: u32) -> &[u32]
    ensures { result.now ≡ part tape.now (step_index tape.now first) (step_index tape.now last) }
{
    between(tape, step_index(tape, first), step_index(tape, last))
}

// The part of a row from one index up to another; where they are the wrong way round or past the row, the empty part.
pub fn part(row: &[u32], begin: u32, end: u32) -> &[u32]
    ensures { result.now ≡ part row.now begin end }
{
    between(row, begin as usize, end as usize)
}

fn between(row: &[u32], begin: usize, end: usize) -> &[u32]
    ensures { result.now ≡ part row.now begin end }
{
    row.get(begin..end).unwrap_or_default()
}
