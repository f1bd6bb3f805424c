// A command line's parameters at the widths that the services take: one that is too large counts as the largest number of its width.
#![tactic(auto)]

ghost use Rattle.std.specs.Prelude.{◌≡◌, min, get_or};
ghost use Rattle.text.specs.Rows.{Put};
ghost use Rattle.tool.specs.Verbs.{largest8, largest32, largest64};
ghost use Rattle.tool.specs.Inner.Held.{held_to};

// A parameter of 64 bits, 0 where there is none.
pub fn large(values: &[u64], place: usize) -> u64
    ensures { result ≡ get_or (held_to largest64 values.now) place 0 }
{
    values.get(place).copied().unwrap_or(0)
}

// One of 32 bits.
pub fn small(values: &[u64], place: usize) -> u32
    ensures { result ≡ get_or (held_to largest32 values.now) place 0 }
{
    held_word(large(values, place))
}

// The parameters at 32 bits, put into a row from a place on, as many as there is room for. It answers the index past them.
pub fn words(values: &[u64], row: &mut [u32], at: usize) -> usize
    ensures { Put row.old at (held_to largest32 values.now) result row.new }
{
    let mut next = at;
    for value in values {
        if row.len() <= next {
            return next;
        }
        row[next] = held_word(*value);
        next += 1;
    }
    next
}

// The same as bytes. The two loops stay apart: what is put is told of rows of numbers, and a row of any type would need a trait for that.
pub fn bytes(values: &[u64], row: &mut [u8], at: usize) -> usize
    ensures { Put row.old at (held_to largest8 values.now) result row.new }
{
    let mut next = at;
    for value in values {
        if row.len() <= next {
            return next;
        }
        row[next] = held_byte(*value);
        next += 1;
    }
    next
}

fn held_word(n: u64) -> u32
    ensures { result ≡ min n largest32 }
{
    u32::try_from(n).unwrap_or(u32::MAX)
}

fn held_byte(n: u64) -> u8
    ensures { result ≡ min n largest8 }
{
    u8::try_from(n).unwrap_or(u8::MAX)
}
