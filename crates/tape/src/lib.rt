// REQUIREMENTS 5: what a word means, and the layout of a tape. The definitions and laws of this layer, and the types and
// limits that they name, with what makes an opcode of a number.
#![tactic(auto)]

ghost use Rattle.std.specs.Prelude.{◌≡◌};
ghost use Rattle.tape.specs.Inner.Operations.{opcode_of};

// A step with its target and its source register.
#[derive(Clone, Copy)]
pub enum Step {
    Mul(u32, u32),
    Div(u32, u32),
    Swp(u32, u32),
}

// What a step does, apart from its registers.
#[derive(Clone, Copy, PartialEq, Eq)]
pub enum Opcode {
    Mul,
    Div,
    Swp,
}

// What the steps of a number do: every number has an opcode. By tests, an exchange first: of a `match` the compiler makes a branch between
// multiplying and dividing too, which is mispredicted at every other step.
impl From<u32> for Opcode {
    ghost from_gives = { λ number opcode. opcode ≡ opcode_of number };

    fn from(number: u32) -> Opcode {
        if 1 < number {
            return Opcode::Swp;
        }
        if number == 1 {
            return Opcode::Div;
        }
        Opcode::Mul
    }
}

// A step by its opcode, with its registers.
#[derive(Clone, Copy)]
pub struct Operation {
    pub opcode: Opcode,
    pub target: u32,
    pub source: u32,
}

// What a word means: the heading with its variant, p, r, k, a step, the end with the count of steps, or nothing.
#[derive(Clone, Copy)]
pub enum Decoded {
    Heading(u32),
    P(u32),
    R(u32),
    K(u32),
    Action(Step),
    End(u32),
    Bad,
}

// What a tape gives beside its steps: its variant, p, r, k and how many steps it has.
#[derive(Clone, Copy)]
pub struct Header {
    pub variant: u32,
    pub modulus: u32,
    pub order: u32,
    pub exponent: u32,
    pub steps: u32,
}

// The most words of a tape.
pub const MAX_WORDS: usize = 512;

// The most steps of a tape.
pub const MAX_STEPS: usize = MAX_WORDS - OTHER_WORDS;

// The words before the first step.
pub const HEADER_WORDS: usize = 4;

// The words that are no steps: the header and the end.
pub const OTHER_WORDS: usize = 5;

// Payloads, so p, r, k and the count of steps, are below this.
pub const NUMBER_LIMIT: u32 = 0x1000_0000;

// The format that a heading names.
pub const FORMAT: u32 = 1;

// Formats are below this; the variant stands above them.
pub const FORMATS: u32 = 0x100;
