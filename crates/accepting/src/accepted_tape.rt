// An accepted tape, for the services that go on from there.
ghost use Rattle.std.specs.Prelude.{◌≡◌};
ghost use Rattle.refusal.specs.Outcomes.{answered};
ghost use Rattle.tape.specs.Layout.{step_words_of};
ghost use Rattle.program.specs.Services.{accept_outcome};

use tape::Header;

// A tape that check accepts, with its header.
#[derive(Clone, Copy)]
pub struct Accepted<'a> {
    pub tape: &'a [u32],
    pub header: Header,
    ghost is_accepted: { accept_outcome tape.now ≡ answered header },
}

impl<'a> Accepted<'a> {
    // The words of its steps.
    pub fn steps(&self) -> &'a [u32]
        ensures { result.now ≡ step_words_of self.now.tape.now }
    {
        parts::steps(self.tape)
    }
}
