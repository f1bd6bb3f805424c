// A command line in a script, by what its call comes to there.
ghost use Rattle.std.specs.Prelude.{true, length};
ghost use Rattle.text.specs.Reading.{split_words};
ghost use Rattle.tool.specs.Calls.{asked_by};
ghost use Rattle.scripting.specs.Script.{replied, commanded};
ghost use Rattle.scripting.specs.States.{state_in, Inside, Did};

use acts::{act_of, count_in};
use arguments::understand;
use build_lines::build;
use command::reply_on;
use edits::edit;
use rooms::{list_in, places_in};
use scripting::{Act, Marks, Printed};

// Does a command line.
pub(crate) fn commanded(
    arguments: &[u8],
    tapes: &mut [u32],
    marks: Marks,
    text: &mut [u8],
) -> Printed
    requires { Inside marks tapes.old }
    ensures { Did (commanded (length tapes.old) (asked_by true (split_words arguments.now)) (state_in marks tapes.old)) text.old result tapes.new text.new }
{
    let line = understand(arguments, true);
    let call = line.call;
    let values = &line.values[..count_in(call)];
    // `act_of` is told whether there is a room, so its acts hold none: where there is none, no act looks at this.
    let room = marks.room.unwrap_or(0);
    match act_of(call, marks.room.is_some()) {
        Act::Reply => as_tool(arguments, tapes, marks, text),
        Act::Edit(verb) => edit(verb, values, tapes, marks, text),
        Act::BuildTape(own) => build(own, values, tapes, marks, text),
        Act::PlacesInRoom(own) => Printed {
            marks,
            length: places_in(own, values, room, text),
        },
        Act::ListInRoom => Printed {
            marks,
            length: list_in(&tapes[marks.begin..marks.end], room, text),
        },
    }
}

// As the tool replies, on the tape at hand.
fn as_tool(arguments: &[u8], tapes: &[u32], marks: Marks, text: &mut [u8]) -> Printed
    requires { Inside marks tapes.now }
    ensures { Did (replied (asked_by true (split_words arguments.now)) (state_in marks tapes.now)) text.old result tapes.now text.new }
{
    let reply = reply_on(
        arguments,
        true,
        true,
        &tapes[marks.begin..marks.end],
        &tapes[..marks.end],
        text,
    );
    Printed {
        marks,
        length: reply.length,
    }
}
