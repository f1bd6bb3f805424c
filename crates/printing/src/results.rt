// The answers of services as they are shown.
ghost use Rattle.std.specs.Prelude.{[], ◌∷◌, ◌++◌, ◌≤◌, length};
ghost use Rattle.text.specs.Text.{whole, number_line};
ghost use Rattle.putting.specs.Buffers.{Puts};
ghost use Rattle.machine.specs.Exponents.{exponents_of};
ghost use Rattle.tables.specs.Tables.{matrix_of};
ghost use Rattle.sequencer.specs.Records.{record_of};
ghost use Rattle.sequencer.specs.Previews.{shown_of};
ghost use Rattle.tool.specs.Texts.{exponents_line, table_lines, record_line, preview_lines, power_lines};

use crate::Shown;
use lines::{number_line, numbers_line};
use machine::Exponents;
use putting::Buffer;
use sequencer::{Preview, State};
use tables::Table;
use text::{BLANK, NEWLINE};

// A number on a line of its own.
impl Shown for u64 {
    ghost text = { number_line };

    fn put(self, lines: &mut Buffer) {
        number_line(lines, self);
    }
}

// A record on a line of its own.
impl Shown for State {
    ghost text = { λ s. record_line (record_of s) };

    fn put(self, lines: &mut Buffer) {
        put_record(lines, self);
    }
}

// A record that is shown with register 1 on a line of its own before it.
#[derive(Clone, Copy)]
pub struct Power {
    pub state: State,
}

impl Shown for Power {
    ghost text = { λ p. power_lines (record_of p.state) };

    fn put(self, lines: &mut Buffer) {
        let state = self.state;
        let registers = state.registers;
        number_line(lines, registers.d as u64);
        put_record(lines, state);
    }
}

// The four registers and the position, and the end of the line.
fn put_record(buffer: &mut Buffer, state: State)
    ensures put { Puts buffer.old (record_line (record_of state)) buffer.new }
    ensures short { length (record_line (record_of state)) ≤ 56 }
{
    let registers = state.registers;
    let values = [
        registers.c,
        registers.d,
        registers.e,
        registers.f,
        state.position,
    ];
    numbers_line(buffer, &values);
}

// The registers on a line, and the counts on the next.
impl Shown for Preview {
    ghost text = { λ w. preview_lines (shown_of w) };

    fn put(self, lines: &mut Buffer) {
        let registers = self.registers;
        let counts = self.counts;
        numbers_line(lines, &[registers.c, registers.d, registers.e, registers.f]);
        numbers_line(lines, &[counts.mul, counts.div, counts.swp]);
    }
}

// Four exponents on one line.
impl Shown for Exponents {
    ghost text = { λ e. exponents_line (exponents_of e) };

    fn put(self, lines: &mut Buffer) {
        put_row(lines, self);
    }
}

// The rows of a table, a line each.
impl Shown for Table {
    ghost text = { λ t. table_lines (matrix_of t) };

    fn put(self, lines: &mut Buffer) {
        put_row(lines, self.c);
        put_row(lines, self.d);
        put_row(lines, self.e);
        put_row(lines, self.f);
    }
}

// Four exponents, and the end of the line.
fn put_row(buffer: &mut Buffer, row: Exponents)
    ensures put { Puts buffer.old (exponents_line (exponents_of row)) buffer.new }
    ensures short { length (exponents_line (exponents_of row)) ≤ 88 }
{
    put_exponent(buffer, row.c, BLANK);
    put_exponent(buffer, row.d, BLANK);
    put_exponent(buffer, row.e, BLANK);
    put_exponent(buffer, row.f, NEWLINE);
}

// A whole number, and a byte.
fn put_exponent(buffer: &mut Buffer, n: i64, last: u8)
    ensures put { Puts buffer.old (whole n ++ last ∷ []) buffer.new }
    ensures short { length (whole n) ≤ 21 }
{
    buffer.put_whole(n);
    buffer.put_byte(last);
}
