// What a tape's word means.
#![tactic(auto)]

ghost use Rattle.std.specs.Prelude.{[], ◌∷◌, ◌≤◌, length};
ghost use Rattle.text.specs.Text.{decimal, line};
ghost use Rattle.tool.specs.Texts.{step_meaning, meaning};
ghost use Rattle.tool.specs.Replies.{answers};
ghost use Rattle.tool.specs.Rows.{Told};

use putting::{Buffer, put};
use tape::{Decoded, Step};
use text::{BLANK, NEWLINE};
use tool::{ANSWERED, Reply};

// A word's name and its numbers.
pub fn meaning(buffer: &mut [u8], word: Decoded) -> Reply
    ensures { Told buffer.old (answers (meaning word)) result buffer.new }
{
    match word {
        Decoded::Heading(variant) => one(buffer, b"heading", variant),
        Decoded::P(n) => one(buffer, b"p", n),
        Decoded::R(n) => one(buffer, b"r", n),
        Decoded::K(n) => one(buffer, b"k", n),
        Decoded::Action(step) => step_meaning(buffer, step),
        Decoded::End(count) => one(buffer, b"end", count),
        Decoded::Bad => none(buffer),
    }
}

fn step_meaning(buffer: &mut [u8], step: Step) -> Reply
    ensures { Told buffer.old (answers (step_meaning step)) result buffer.new }
{
    match step {
        Step::Mul(target, source) => two(buffer, b"mul", target, source),
        Step::Div(target, source) => two(buffer, b"div", target, source),
        Step::Swp(target, source) => two(buffer, b"swp", target, source),
    }
}

// A name of at most seven bytes and a number.
fn one(buffer: &mut [u8], name: &[u8], n: u32) -> Reply
    requires { length name.now ≤ 7 }
    ensures { Told buffer.old (answers (line (name.now ∷ decimal n ∷ []))) result buffer.new }
{
    let mut line = Buffer::new(buffer);
    line.put_then(name, BLANK);
    line.put_number_then(n as u64, NEWLINE);
    Reply {
        status: ANSWERED,
        length: line.next,
    }
}

// A name and two numbers.
fn two(buffer: &mut [u8], name: &[u8], m: u32, n: u32) -> Reply
    requires { length name.now ≤ 7 }
    ensures { Told buffer.old (answers (line (name.now ∷ decimal m ∷ decimal n ∷ []))) result buffer.new }
{
    let mut line = Buffer::new(buffer);
    line.put_then(name, BLANK);
    line.put_number_then(m as u64, BLANK);
    line.put_number_then(n as u64, NEWLINE);
    Reply {
        status: ANSWERED,
        length: line.next,
    }
}

fn none(buffer: &mut [u8]) -> Reply
    ensures { Told buffer.old (answers (meaning Decoded.Bad)) result buffer.new }
{
    Reply {
        status: ANSWERED,
        length: put(buffer, 0, b"none\n"),
    }
}
