// The command-line tool: its verbs and its texts. The functions over them are in the crates above.
#![tactic(auto)]

// A verb on a tape.
#[derive(Clone, Copy)]
pub enum TapeVerb {
    Check,
    Listing,
    Load,
    Run,
    SingleStep,
    Preview,
    Power,
    Raise,
    Trace,
    Table,
    Cut,
    Play,
}

// A verb on numbers alone.
#[derive(Clone, Copy)]
pub enum NumberVerb {
    Decode,
    Fibonacci,
    Places,
    NumberOf,
    Hofstadter,
    Inverse,
    Height,
    Prime,
    MulMod,
    PowMod,
}

// A verb that only a script has.
#[derive(Clone, Copy)]
pub enum ScriptVerb {
    Tape,
    Append,
    Change,
    Drop,
    Behind,
    Room,
}

#[derive(Clone, Copy)]
pub enum Verb {
    Build,
    Script,
    Help,
    Version,
    OnTape(TapeVerb),
    OnNumbers(NumberVerb),
    InScript(ScriptVerb),
}

// A verb, how many parameters it takes at least and at most, the largest number among them, and the refusal whose reason is its own, 0
// where there is none.
#[derive(Clone, Copy)]
pub struct Row {
    pub verb: Verb,
    pub least: usize,
    pub most: usize,
    pub largest: u64,
    pub own: u32,
}

// What a command line asks for. The words and the row of parameters stand beside it: a word that isn't read has an index among the
// words, and the parameters are the first `count` of their row.
#[derive(Clone, Copy)]
pub enum Call {
    NoWord,
    NoVerb,
    WrongCount { row: Row, given: usize },
    Unread { row: Row, index: usize },
    Known { row: Row, count: usize },
}

// A call with its parameters.
#[derive(Clone, Copy)]
pub struct CommandLine {
    pub call: Call,
    pub values: [u64; MAX_PARAMETERS],
}

// A reply whose text stands in a row: its status, 0 answered, 1 refused, 2 not understood, and how many bytes of the text stand there.
#[derive(Clone, Copy)]
pub struct Reply {
    pub status: u32,
    pub length: usize,
}

pub const ANSWERED: u32 = 0;

pub const REFUSED: u32 = 1;

pub const NOT_UNDERSTOOD: u32 = 2;

// No text of a reply is longer.
pub const MAX_TEXT: usize = 8192;

// The most parameters of all, those of raise: above what the service takes, so that it is the service that refuses.
pub const MAX_PARAMETERS: usize = 66;

// The most of play, number, tape and append.
pub const MAX_NUMBERS: usize = 64;

// The most elements of a buffer that a script gives.
pub const MAX_ROOM: u64 = 4096;

pub const LARGEST_8: u64 = 255;

pub const LARGEST_32: u64 = 4294967295;

pub const LARGEST_64: u64 = 18446744073709551615;

// The verbs' names, a zero byte after each. They stand beside the rows in one text, as the variants' names do: one function looks a word up in either.
pub const NAMES: [u8; 225] =
    *b"build\0script\0help\0--help\0-h\0version\0--version\0check\0list\0load\0run\0step\0preview\0power\0raise\0trace\0table\0cut\0play\0decode\0fibonacci\0places\0number\0hofstadter\0inverse\0height\0prime\0mulmod\0powmod\0tape\0append\0change\0drop\0behind\0room\0";

// A row on one line.
macro_rules! row {
    ($verb:expr => $least:expr, $most:expr, $largest:expr, $own:expr) => {
        Row {
            verb: $verb,
            least: $least,
            most: $most,
            largest: $largest,
            own: $own,
        }
    };
}

// A row for each name, in the names' order.
pub const ROWS: [Row; 35] = [
    row!(Verb::Build => 4, 4, LARGEST_32, 4),
    row!(Verb::Script => 0, 0, LARGEST_32, 0),
    row!(Verb::Help => 0, 0, LARGEST_32, 0),
    row!(Verb::Help => 0, 0, LARGEST_32, 0),
    row!(Verb::Help => 0, 0, LARGEST_32, 0),
    row!(Verb::Version => 0, 0, LARGEST_32, 0),
    row!(Verb::Version => 0, 0, LARGEST_32, 0),
    row!(Verb::OnTape(TapeVerb::Check) => 0, 0, LARGEST_32, 0),
    row!(Verb::OnTape(TapeVerb::Listing) => 0, 0, LARGEST_32, 0),
    row!(Verb::OnTape(TapeVerb::Load) => 1, 1, LARGEST_32, 0),
    row!(Verb::OnTape(TapeVerb::Run) => 6, 6, LARGEST_32, 9),
    row!(Verb::OnTape(TapeVerb::SingleStep) => 6, 6, LARGEST_32, 9),
    row!(Verb::OnTape(TapeVerb::Preview) => 6, 6, LARGEST_32, 9),
    row!(Verb::OnTape(TapeVerb::Power) => 1, 1, LARGEST_32, 0),
    row!(Verb::OnTape(TapeVerb::Raise) => 0, MAX_PARAMETERS, LARGEST_32, 4),
    row!(Verb::OnTape(TapeVerb::Trace) => 1, 1, LARGEST_32, 0),
    row!(Verb::OnTape(TapeVerb::Table) => 1, 1, LARGEST_32, 0),
    row!(Verb::OnTape(TapeVerb::Cut) => 2, 2, LARGEST_32, 10),
    row!(Verb::OnTape(TapeVerb::Play) => 5, MAX_NUMBERS, LARGEST_32, 0),
    row!(Verb::OnNumbers(NumberVerb::Decode) => 1, 1, LARGEST_32, 0),
    row!(Verb::OnNumbers(NumberVerb::Fibonacci) => 1, 1, LARGEST_32, 13),
    row!(Verb::OnNumbers(NumberVerb::Places) => 1, 1, LARGEST_64, 0),
    row!(Verb::OnNumbers(NumberVerb::NumberOf) => 0, MAX_NUMBERS, LARGEST_8, 12),
    row!(Verb::OnNumbers(NumberVerb::Hofstadter) => 1, 1, LARGEST_64, 0),
    row!(Verb::OnNumbers(NumberVerb::Inverse) => 2, 2, LARGEST_32, 2),
    row!(Verb::OnNumbers(NumberVerb::Height) => 1, 1, LARGEST_32, 0),
    row!(Verb::OnNumbers(NumberVerb::Prime) => 1, 1, LARGEST_32, 0),
    row!(Verb::OnNumbers(NumberVerb::MulMod) => 3, 3, LARGEST_32, 0),
    row!(Verb::OnNumbers(NumberVerb::PowMod) => 3, 3, LARGEST_32, 0),
    row!(Verb::InScript(ScriptVerb::Tape) => 0, MAX_NUMBERS, LARGEST_32, 0),
    row!(Verb::InScript(ScriptVerb::Append) => 0, MAX_NUMBERS, LARGEST_32, 0),
    row!(Verb::InScript(ScriptVerb::Change) => 2, 2, LARGEST_32, 0),
    row!(Verb::InScript(ScriptVerb::Drop) => 1, 1, LARGEST_32, 0),
    row!(Verb::InScript(ScriptVerb::Behind) => 0, 0, LARGEST_32, 0),
    row!(Verb::InScript(ScriptVerb::Room) => 0, 1, MAX_ROOM, 0),
];

// What is said of a word that is no variant.
pub const NO_VARIANT: [u8; 43] = *b": no variant; basic, dual, hybrid or 1 to 3";

pub const USAGE: [u8; 1741] =
    *b"usage: fibexp VERB PARAMETER..\n  build P R K VARIANT    write a tape; VARIANT is basic, dual, hybrid or 1 to 3\n  script                 commands from standard input, one on a line\non the tape from standard input; a RECORD is C D E F POSITION, the registers and the position:\n  check                  0 where the tape is accepted\n  list                   the tape's listing\n  load BASE              the record to start from\n  run RECORD TO          the record at position TO\n  step RECORD BACKWARD   the record one step on, or one step back where BACKWARD isn't 0\n  preview RECORD TO      the registers at position TO, then the mul, div and swp steps on the way\n  power BASE             load and run: register 1 (a named program's power), the record\n  raise BASE..           each of up to 64 bases to the power k, by a named program\n  trace POSITION         the four whole exponents\n  table POSITION         the exponent of each start value in each register, a line for each register\n  cut FIRST LAST         the words of the steps FIRST + 1 to LAST\n  play RECORD REQUEST..  a list of runs, each BEGIN END TURN TO: the record at its end, each run's number\non numbers:\n  decode WORD            what a tape's word means\n  fibonacci I            the Fibonacci number of index I\n  places N               the places of the Zeckendorf form of N, highest first\n  number PLACE..         the number of these places\n  hofstadter N           G(N)\n  inverse K R            the inverse of K modulo R\n  height R               the least h above 0 with R below phi^h\n  prime N                1 where N is a prime, else 0\n  mulmod A B M           A times B modulo M\n  powmod A K M           A to the K modulo M\n  help, version          this text; the version\n";
