// What a call comes to in a script: the verbs that only a script has, those that look at the room, and all others as in the tool.
#![tactic(auto)]

ghost use Rattle.std.specs.Prelude.{◌≡◌};
ghost use Rattle.scripting.specs.Inner.Acts.{act_by, act_of, count_of};

use scripting::Act;
use tool::{Call, NumberVerb, TapeVerb, Verb};

pub fn act_of(call: Call, roomed: bool) -> Act
    ensures { result ≡ act_of call roomed }
{
    match call {
        Call::Known { row, .. } => act_by(row.verb, roomed, row.own),
        _ => Act::Reply,
    }
}

// Of the verbs on numbers places alone looks at the room, of those on a tape list alone; without a room they are as in the tool.
fn act_by(verb: Verb, roomed: bool, own: u32) -> Act
    ensures { result ≡ act_by verb roomed own }
{
    match verb {
        Verb::InScript(edit) => Act::Edit(edit),
        Verb::Build => Act::BuildTape(own),
        Verb::OnNumbers(NumberVerb::Places) if roomed => Act::PlacesInRoom(own),
        Verb::OnTape(TapeVerb::Listing) if roomed => Act::ListInRoom,
        _ => Act::Reply,
    }
}

// How many parameters a call has.
pub fn count_in(call: Call) -> usize
    ensures { result ≡ count_of call }
{
    match call {
        Call::Known { count, .. } => count,
        _ => 0,
    }
}
