// What the steps of some words make of the start values' exponents: of one start value, a column; of all four, the table.
#![tactic(auto)]

ghost use Rattle.std.specs.Prelude.{◌≡◌, true, [], ◌∷◌};
ghost use Rattle.tape.specs.Inner.Operations.{raw_steps};
ghost use Rattle.matrices.specs.Matrices.{transposed};
ghost use Rattle.machine.specs.Exponents.{exponents_of, exponents_outcome_of, all_in_range, stays_in_range, shift_all};
ghost use Rattle.tables.specs.Tables.{unit, matrix_of, table_outcome_of};
ghost use Rattle.tables.specs.Inner.Columns.{column_outcome, columns_outcome};

use decoding::operation_of;
use exponent_steps::{exponents_of, shift};
use machine::Exponents;
use refusal::Refusal;
use tables::Table;

// Start value j's exponents after the steps that some words have in their digits; 12 where one leaves the range at any position. Its loop
// stands once, so that a table's four passes have the same branches, and the last three find them learned.
#[inline(never)]
pub fn column(words: &[u32], j: u32) -> Result<Exponents, Refusal>
    ensures { exponents_outcome_of result ≡ column_outcome (raw_steps words.now) j }
{
    let mut exponents = start_of(j);
    if !shift_all(words, &mut exponents) {
        return Err(Refusal::Range);
    }
    Ok(exponents_of(&exponents))
}

// Those of all four start values, a row for each register; 12 where any leaves the range at any position.
pub fn table(words: &[u32]) -> Result<Table, Refusal>
    ensures { table_outcome_of result ≡ columns_outcome (raw_steps words.now) }
{
    let first = column(words, 0)?;
    let second = column(words, 1)?;
    let third = column(words, 2)?;
    let fourth = column(words, 3)?;
    Ok(rows(first, second, third, fourth))
}

// The exponents of start value j before any step: 1 in register j, 0 in the others.
fn start_of(j: u32) -> [i64; 4]
    ensures { result ≡ unit j }
{
    match j {
        0 => [1, 0, 0, 0],
        1 => [0, 1, 0, 0],
        2 => [0, 0, 1, 0],
        3 => [0, 0, 0, 1],
        _ => [0, 0, 0, 0],
    }
}

// The steps that some words have in their digits, on whole exponents: whether all stay in the range at every position. Where they do,
// the row holds what the steps lead to.
fn shift_all(words: &[u32], exponents: &mut [i64]) -> bool
    requires { all_in_range exponents.old ≡ true }
    ensures value { result ≡ stays_in_range (raw_steps words.now) exponents.old }
    ensures exponents_after { result ≡ true → exponents.new ≡ shift_all (raw_steps words.now) exponents.old }
{
    for word in words {
        if !shift(exponents, operation_of(*word)) {
            return false;
        }
    }
    true
}

// Four columns' rows.
fn rows(first: Exponents, second: Exponents, third: Exponents, fourth: Exponents) -> Table
    ensures { matrix_of result ≡ transposed 4 (exponents_of first ∷ exponents_of second ∷ exponents_of third ∷ exponents_of fourth ∷ []) }
{
    Table {
        c: row(first.c, second.c, third.c, fourth.c),
        d: row(first.d, second.d, third.d, fourth.d),
        e: row(first.e, second.e, third.e, fourth.e),
        f: row(first.f, second.f, third.f, fourth.f),
    }
}

fn row(first: i64, second: i64, third: i64, fourth: i64) -> Exponents
    ensures { exponents_of result ≡ first ∷ second ∷ third ∷ fourth ∷ [] }
{
    Exponents {
        c: first,
        d: second,
        e: third,
        f: fourth,
    }
}
