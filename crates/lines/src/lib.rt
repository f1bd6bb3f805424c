// Lines of numbers, put into a lent buffer.
#![tactic(auto)]

ghost use Rattle.std.specs.Prelude.{◌+◌, ◌*◌, ◌≤◌, length};
ghost use Rattle.text.specs.Text.{number_line, numbers_line};
ghost use Rattle.putting.specs.Buffers.{Puts};

use putting::Buffer;
use text::{BLANK, NEWLINE};

// A number on a line of its own.
pub fn number_line(buffer: &mut Buffer, n: u64)
    ensures put { Puts buffer.old (number_line n) buffer.new }
    ensures short { length (number_line n) ≤ 21 }
{
    buffer.put_number_then(n, NEWLINE);
}

// Numbers on one line.
pub fn numbers_line(buffer: &mut Buffer, values: &[u32])
    ensures put { Puts buffer.old (numbers_line values.now) buffer.new }
    ensures short { length (numbers_line values.now) ≤ 11 * length values.now + 1 }
{
    let Some((first, others)) = values.split_first() else {
        return buffer.put_byte(NEWLINE);
    };
    buffer.put_number(u64::from(*first));
    for n in others {
        buffer.put_byte(BLANK);
        buffer.put_number(u64::from(*n));
    }
    buffer.put_byte(NEWLINE);
}

// Bytes' numbers on one line.
pub fn bytes_line(buffer: &mut Buffer, values: &[u8])
    ensures put { Puts buffer.old (numbers_line values.now) buffer.new }
    ensures short { length (numbers_line values.now) ≤ 4 * length values.now + 1 }
{
    let Some((first, others)) = values.split_first() else {
        return buffer.put_byte(NEWLINE);
    };
    buffer.put_number(u64::from(*first));
    for byte in others {
        buffer.put_byte(BLANK);
        buffer.put_number(u64::from(*byte));
    }
    buffer.put_byte(NEWLINE);
}
