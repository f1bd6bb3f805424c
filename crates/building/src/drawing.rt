// The steps that a figure draws, as words, written one after another.
ghost use Rattle.std.specs.Prelude.{◌≡◌, [], ◌+◌, ◌≤◌, length};
ghost use Rattle.std.proofs.lemmas.List.Edits.{sets};
ghost use Rattle.program.specs.Inner.Forms.{bits_in, Whole};
ghost use Rattle.program.specs.Inner.Writing.{front_words, drawn_words};
ghost use Rattle.building.specs.Writing.{HasRoom, Writes};

use crate::words::{SWP_0_1, SWP_0_2, SWP_1_2, SWP_1_3};
use crate::writer::Writer;
use fibonacci::BitString;
use named::Figure;
use program::FormRows;

// Writes the steps of a program into the lent row from an index on.
pub(crate) fn draw(row: &mut [u32], next: usize, forms: &FormRows)
    requires whole { Whole forms.now }
    requires room { next + length (drawn_words forms.now) ≤ length row.old }
    ensures { row.new ≡ sets row.old next (drawn_words forms.now) }
{
    let mut writer = Writer { row, next };
    writer.draw(forms);
}

// The bits of a form, as many as it has places.
fn bits(form: &BitString) -> &[u8]
    ensures { result.now ≡ bits_in form.now }
{
    &form.bits[..form.length.min(form.bits.len())]
}

impl<'a> Writer<'a> {
    // Every figure ends with its last form taken back.
    fn draw(&mut self, forms: &FormRows)
        requires whole { Whole forms.now }
        requires room { HasRoom self.old (drawn_words forms.now) }
        ensures { Writes self.old (drawn_words forms.now) self.new }
    {
        let beside_last = bits(&forms.beside_last);
        self.front(
            forms.figure,
            bits(&forms.first),
            bits(&forms.beside),
            beside_last,
        );
        self.ascend_back(bits(&forms.last), beside_last);
    }

    // What comes before.
    fn front(&mut self, figure: Figure, first: &[u8], beside: &[u8], beside_last: &[u8])
        requires same_length { length first.now ≡ length beside.now }
        requires room { HasRoom self.old (front_words figure first.now beside.now beside_last.now) }
        ensures { Writes self.old (front_words figure first.now beside.now beside_last.now) self.new }
    {
        match figure {
            Figure::Two => self.front_2(first, beside, beside_last),
            Figure::Four => self.front_4(first, beside),
            Figure::Six => self.front_6(first),
        }
    }

    // Figure 2: up the first form and the chain back; swap; the chain up. The rows beside have no place set, so they are the chains.
    fn front_2(&mut self, first: &[u8], none: &[u8], none_last: &[u8])
        requires same_length { length first.now ≡ length none.now }
        requires room { HasRoom self.old (front_words Figure.Two first.now none.now none_last.now) }
        ensures { Writes self.old (front_words Figure.Two first.now none.now none_last.now) self.new }
    {
        self.ascend(first, none);
        self.ascend_back(none, none);
        self.put(SWP_1_2);
        self.ascend(none_last, none_last);
    }

    // Figure 4: up two forms; swap both pairs.
    fn front_4(&mut self, first: &[u8], beside: &[u8])
        requires same_length { length first.now ≡ length beside.now }
        requires room { HasRoom self.old (front_words Figure.Four first.now beside.now []) }
        ensures { Writes self.old (front_words Figure.Four first.now beside.now []) self.new }
    {
        self.ascend(first, beside);
        self.put(SWP_0_2);
        self.put(SWP_1_3);
    }

    // Figure 6: swp 0 1; down the first form; the reordering.
    fn front_6(&mut self, first: &[u8])
        requires { HasRoom self.old (front_words Figure.Six first.now [] []) }
        ensures { Writes self.old (front_words Figure.Six first.now [] []) self.new }
    {
        self.put(SWP_0_1);
        self.descend(first);
        self.put(SWP_0_1);
        self.put(SWP_1_2);
    }
}
