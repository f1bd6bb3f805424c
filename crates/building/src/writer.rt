// Writes the loops of the programs into the lent row, a place at a time.
ghost use Rattle.std.specs.Prelude.{◌≡◌, [], ◌∷◌, length};
ghost use Rattle.program.specs.Inner.Writing.{chosen, up_words, back_words, down_words, ascend_words, ascend_back_words, descend_words};
ghost use Rattle.building.specs.Writing.{HasRoom, Writes};

use crate::words::{
    DIV_0_1, DIV_2_1, DIV_3_1, MUL_0_1, MUL_1_2, MUL_2_0, MUL_2_1, MUL_3_1, SWP_0_1, SWP_1_2,
};

// A lent row, and the index of the next word that is written there.
#[derive(Drop)]
pub(crate) struct Writer<'a> {
    pub(crate) row: &'a mut [u32],
    pub(crate) next: usize,
}

impl<'a> Writer<'a> {
    // One word.
    pub(crate) fn put(&mut self, word: u32)
        requires { HasRoom self.old (word ∷ []) }
        ensures { Writes self.old (word ∷ []) self.new }
    {
        self.row[self.next] = word;
        self.next += 1;
    }

    // A word for a place that is set.
    fn put_if(&mut self, bit: u8, word: u32)
        requires { HasRoom self.old (chosen bit word) }
        ensures { Writes self.old (chosen bit word) self.new }
    {
        if bit == 1 {
            self.put(word);
        }
    }

    // A place going up: a chain step, then the selected multiplications.
    #[tactic(auto, using(program::proofs::Laws::Writing::up_length), unfolding(tape::specs::Words::step_word))]
    fn place_up(&mut self, first: u8, second: u8)
        requires { HasRoom self.old (up_words first second) }
        ensures { Writes self.old (up_words first second) self.new }
    {
        self.put(MUL_0_1);
        self.put(SWP_0_1);
        self.put_if(first, MUL_2_1);
        self.put_if(second, MUL_3_1);
    }

    // The same place taken back.
    #[tactic(auto, using(program::proofs::Laws::Writing::back_length), unfolding(tape::specs::Words::step_word))]
    fn place_back(&mut self, first: u8, second: u8)
        requires { HasRoom self.old (back_words first second) }
        ensures { Writes self.old (back_words first second) self.new }
    {
        self.put_if(second, DIV_3_1);
        self.put_if(first, DIV_2_1);
        self.put(SWP_0_1);
        self.put(DIV_0_1);
    }

    // A place of the first loop of the hybrid program.
    #[tactic(auto, using(program::proofs::Laws::Writing::down_length), unfolding(tape::specs::Words::step_word))]
    fn place_down(&mut self, bit: u8)
        requires { HasRoom self.old (down_words bit) }
        ensures { Writes self.old (down_words bit) self.new }
    {
        self.put_if(bit, MUL_2_0);
        self.put(MUL_1_2);
        self.put(SWP_1_2);
    }

    // Two forms going up, of as many bits each.
    pub(crate) fn ascend(&mut self, firsts: &[u8], seconds: &[u8])
        requires same_length { length firsts.now ≡ length seconds.now }
        requires room { HasRoom self.old (ascend_words firsts.now seconds.now) }
        ensures { Writes self.old (ascend_words firsts.now seconds.now) self.new }
    {
        for (first, second) in firsts.iter().zip(seconds) {
            self.place_up(*first, *second);
        }
    }

    // Two forms taken back, highest place first.
    pub(crate) fn ascend_back(&mut self, firsts: &[u8], seconds: &[u8])
        requires same_length { length firsts.now ≡ length seconds.now }
        requires room { HasRoom self.old (ascend_back_words firsts.now seconds.now) }
        ensures { Writes self.old (ascend_back_words firsts.now seconds.now) self.new }
    {
        for (first, second) in firsts.iter().rev().zip(seconds.iter().rev()) {
            self.place_back(*first, *second);
        }
    }

    // A form coming down, highest place first.
    pub(crate) fn descend(&mut self, bits: &[u8])
        requires { HasRoom self.old (descend_words bits.now) }
        ensures { Writes self.old (descend_words bits.now) self.new }
    {
        for bit in bits.iter().rev() {
            self.place_down(*bit);
        }
    }
}
