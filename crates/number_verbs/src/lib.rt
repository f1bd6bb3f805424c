// The verbs on numbers alone, and build: what is replied to each. A parameter above what a verb can do with counts as the largest that it can.
#![tactic(auto)]

ghost use Rattle.std.specs.Prelude.{◌≡◌, [], ◌∷◌, take};
ghost use Rattle.tool.specs.Verbs.{largest8, largest32, max_parameters, limit_on};
ghost use Rattle.fibonacci.specs.Services.{bit};
ghost use Rattle.tool.specs.Replies.{built, number_reply};
ghost use Rattle.tool.specs.Rows.{Told};
ghost use Rattle.tool.specs.Inner.Held.{held_to};

use encoding::tape_bytes;
use lines::bytes_line;
use meanings::meaning;
use printing::{print, refuse, show};
use putting::Buffer;
use tape::MAX_WORDS;
use tool::{ANSWERED, MAX_PARAMETERS, NumberVerb, Reply};
use widths::{bytes, large, small};

// A verb on its parameters. No verb has more of them than `tool::MAX_PARAMETERS`: what stands behind that many isn't looked at.
pub fn on_numbers(verb: NumberVerb, own: u32, values: &[u64], text: &mut [u8]) -> Reply
    ensures { Told text.old (number_reply verb own (take max_parameters (held_to (limit_on verb) values.now))) result text.new }
{
    match verb {
        NumberVerb::Decode => meaning(text, decoding::decode(small(values, 0))),
        NumberVerb::Fibonacci => print(text, own, golden::fibonacci(small(values, 0))),
        NumberVerb::Places => places(large(values, 0), text),
        NumberVerb::NumberOf => number_of(own, values, text),
        NumberVerb::Hofstadter => show(text, golden::hofstadter(large(values, 0))),
        NumberVerb::Inverse => print(
            text,
            own,
            modular::inverse(small(values, 0), small(values, 1)),
        ),
        NumberVerb::Height => show(text, golden::height(small(values, 0)) as u64),
        NumberVerb::Prime => show(text, bit(modular::is_prime(small(values, 0)))),
        NumberVerb::MulMod => {
            show(
                text,
                modular::product(small(values, 0), small(values, 1), small(values, 2)) as u64,
            )
        }
        NumberVerb::PowMod => {
            show(
                text,
                montgomery::power(small(values, 0), small(values, 1), small(values, 2)) as u64,
            )
        }
    }
}

// A truth as a number.
fn bit(truth: bool) -> u64
    ensures { result ≡ bit truth }
{
    if truth {
        return 1;
    }
    0
}

// The tape of a named program.
pub fn build(own: u32, values: &[u64], text: &mut [u8]) -> Reply
    ensures { Told text.old (built own (held_to largest32 values.now)) result text.new }
{
    let mut row = [0u32; MAX_WORDS];
    let p = small(values, 0);
    let r = small(values, 1);
    let k = small(values, 2);
    let answer = building::build(p, r, k, small(values, 3), &mut row);
    match answer {
        Ok(n) => {
            let count = n as usize;
            let mut buffer = Buffer::new(text);
            tape_bytes(&mut buffer, &row[..count]);
            Reply {
                status: ANSWERED,
                length: buffer.next,
            }
        }
        Err(e) => refuse(text, own, u32::from(e)),
    }
}

// The places of a number's Zeckendorf form.
fn places(n: u64, text: &mut [u8]) -> Reply
    ensures { Told text.old (number_reply NumberVerb.Places 0 (n ∷ [])) result text.new }
{
    let form = zeckendorf::zeckendorf(n);
    let mut line = Buffer::new(text);
    bytes_line(&mut line, form.places());
    Reply {
        status: ANSWERED,
        length: line.next,
    }
}

// The number of a list of places.
fn number_of(own: u32, values: &[u64], text: &mut [u8]) -> Reply
    ensures { Told text.old (number_reply NumberVerb.NumberOf own (take max_parameters (held_to largest8 values.now))) result text.new }
{
    let mut row = [0u8; MAX_PARAMETERS];
    let count = bytes(values, &mut row, 0);
    print(text, own, places::number_of_places(&row[..count]))
}
