// Scripts: command lines one after another, with a row of tapes kept between them. The definitions and the types that they name; the
// functions over them are in the crates above.
#![tactic(auto)]

use tool::ScriptVerb;

// Where the tape at hand begins in the row of tapes, where it ends, and the room that build, places and list get, if any.
#[derive(Clone, Copy)]
pub struct Marks {
    pub begin: usize,
    pub end: usize,
    pub room: Option<usize>,
}

// The marks that a line left, and how many bytes of what it printed stand in their row.
#[derive(Clone, Copy)]
pub struct Printed {
    pub marks: Marks,
    pub length: usize,
}

// What a call comes to in a script: as the tool replies, an edit of the tape at hand, a build, or places or list in a room; with the
// refusal that is the verb's own.
#[derive(Clone, Copy)]
pub enum Act {
    Reply,
    Edit(ScriptVerb),
    BuildTape(u32),
    PlacesInRoom(u32),
    ListInRoom,
}

// The most words of a row of tapes.
pub const MAX_TAPES: usize = 4096;

// The most bytes of a line. One byte more is enough to see that there are too many.
pub const MAX_LINE: usize = 4095;

// No line prints more.
pub const MAX_PRINTED: usize = 65536;

// The most elements of a buffer.
pub const MAX_ROOM: usize = 4096;

// At first there is no tape and no room.
pub const START: Marks = Marks {
    begin: 0,
    end: 0,
    room: None,
};
