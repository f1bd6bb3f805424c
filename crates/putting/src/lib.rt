// Texts and numbers, put into a lent row as far as it has room.
#![tactic(auto)]

ghost use Rattle.std.specs.Prelude.{[], ◌∷◌, ◌++◌, ◌%◌};
ghost use Rattle.text.specs.Text.{decimal, whole};
ghost use Rattle.text.specs.Rows.{Put};
ghost use Rattle.putting.specs.Buffers.{Puts, Fresh};

const MINUS: u8 = b'-';

const ZERO: u8 = b'0';

// Puts elements from `at` on, as many of them as fit, and answers the index past them.
pub fn put<T: Copy>(row: &mut [T], at: usize, items: &[T]) -> usize
    ensures { Put row.old at items.now result row.new }
{
    if row.len() <= at {
        return at;
    }
    let count = (row.len() - at).min(items.len());
    // By the index: `copy_from_slice` makes the archive for C ask for `memmove` beside `memcpy` and `memset`.
    for i in 0..count {
        row[at + i] = items[i];
    }
    at + count
}

// A lent row of bytes, and the index past what was put into it.
#[derive(Drop)]
pub struct Buffer<'a> {
    pub row: &'a mut [u8],
    pub next: usize,
}

impl<'a> Buffer<'a> {
    // A row that is filled from its start.
    pub fn new(row: &'a mut [u8]) -> Buffer<'a>
        ensures { Fresh row.entry result }
    {
        Buffer { row, next: 0 }
    }

    // Puts a text, as much of it as fits.
    pub fn put(&mut self, text: &[u8])
        ensures { Puts self.old text.now self.new }
    {
        self.next = put(self.row, self.next, text);
    }

    // Puts a byte.
    pub fn put_byte(&mut self, byte: u8)
        ensures { Puts self.old (byte ∷ []) self.new }
    {
        if self.next < self.row.len() {
            self.row[self.next] = byte;
            self.next += 1;
        }
    }

    // Puts a number in decimal. Its digits are found from the last one on, so they fill a row from its end; a u64 has at most 20.
    pub fn put_number(&mut self, n: u64)
        ensures { Puts self.old (decimal n) self.new }
    {
        let mut digits = [0u8; 20];
        let mut first: usize = 19;
        let mut rest = n;
        while rest >= 10 {
            digits[first] = ZERO + (rest % 10) as u8;
            rest /= 10;
            first -= 1;
        }
        digits[first] = ZERO + rest as u8;
        self.put(&digits[first..]);
    }

    // Puts the last digit of a number.
    pub fn put_digit(&mut self, n: u64)
        ensures { Puts self.old (decimal (n % 10)) self.new }
    {
        self.put_byte(ZERO + (n % 10) as u8);
    }

    // Puts a text and a byte behind it.
    pub fn put_then(&mut self, text: &[u8], last: u8)
        ensures { Puts self.old (text.now ++ last ∷ []) self.new }
    {
        self.put(text);
        self.put_byte(last);
    }

    // Puts a number in decimal and a byte behind it.
    pub fn put_number_then(&mut self, n: u64, last: u8)
        ensures { Puts self.old (decimal n ++ last ∷ []) self.new }
    {
        self.put_number(n);
        self.put_byte(last);
    }

    // Puts a whole number in decimal.
    pub fn put_whole(&mut self, n: i64)
        ensures { Puts self.old (whole n) self.new }
    {
        if n < 0 {
            self.put_byte(MINUS);
        }
        self.put_number(n.unsigned_abs());
    }
}
