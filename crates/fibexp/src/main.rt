// The command-line tool: gathers its arguments, reads a tape or a script from standard input where the verb takes one, and writes the
// reply.
#![tactic(auto)]

ghost use Rattle.std.specs.Prelude.{◌≡◌, ◌<◌, ◌≤◌, length, take, IfOk, IfSome};
ghost use Rattle.text.specs.Reading.{split_words};
ghost use Rattle.tool.specs.Replies.{reply};
ghost use Rattle.tool.specs.Rows.{max_text};

use arguments::{reads_script, reads_tape, writes_tape};
use command::reply;
use driver::run_script;
use encoding::{MAX_BYTES, WORD_BYTES};
use std::env::{Env, FillError};
use std::io::IsTerminal;
use streams::{read_input, write_error, write_output};
use tool::{ANSWERED, MAX_TEXT, Reply};

// One word more than a tape has is enough to see that there are too many.
const MAX_READ: usize = MAX_BYTES + WORD_BYTES;

// The most bytes of a command line's words, a zero byte after each.
const MAX_ARGUMENTS: usize = 4095;

fn main(rt: HostRuntime) {
    let mut arguments = [0u8; MAX_ARGUMENTS];
    let Some(count) = gather(rt, &mut arguments) else {
        let _told = write_error(rt, b"fibexp: a command line of more than 4095 bytes\n");
        return;
    };
    answer(rt, &arguments[..count]);
}

// Puts the words after the program's name into the row, and answers how many bytes they take; none where they don't fit.
fn gather(rt: HostRuntime, row: &mut [u8]) -> Option<usize>
    ensures { IfSome result (λ count. count ≤ length row.new) }
{
    let mut at: usize = 0;
    // Each word takes a byte or more of the row.
    for i in 1..MAX_ARGUMENTS + 2 {
        match add(rt, i, &mut row[at..]) {
            Ok(count) => at += count,
            Err(FillError::NotPresent) => return Some(at),
            Err(FillError::TooLong) => return None,
        }
    }
    None
}

// Puts argument i and a zero byte at the row's start, and answers how many bytes they take.
fn add(rt: HostRuntime, i: usize, row: &mut [u8]) -> Result<usize, FillError>
    ensures { IfOk result (λ count. (0 < count) × (count ≤ length row.new)) }
{
    let length = rt.arg(i, row)?;
    let end = row.get_mut(length).ok_or(FillError::TooLong)?;
    *end = 0;
    Ok(length + 1)
}

// Reads standard input only where the verb takes it, so that no other waits for it.
fn answer(rt: HostRuntime, arguments: &[u8]) {
    if reads_script(arguments) {
        run_script(rt);
        return;
    }
    if !reads_tape(arguments) {
        write(rt, arguments, b"");
        return;
    }
    let mut bytes = [0u8; MAX_READ];
    if let Ok(count) = read_input(rt, &mut bytes) {
        write(rt, arguments, &bytes[..count]);
    }
}

// Writes the reply to the stream that its status names.
fn write(rt: HostRuntime, arguments: &[u8], input: &[u8]) {
    let mut text = [0u8; MAX_TEXT];
    let made = whole_reply(arguments, input, &mut text);
    let text = &text[..made.length];
    if made.status != ANSWERED {
        let _told = write_error(rt, text);
        return;
    }
    if is_tape_to_terminal(rt, arguments) {
        let _told = write_error(
            rt,
            b"fibexp: a tape is bytes and no text; write it to a file: fibexp build P R K VARIANT > FILE\n",
        );
        return;
    }
    let _taken = write_output(rt, text);
}

// The reply in a row that no reply is too long for: nothing of it is dropped.
fn whole_reply(arguments: &[u8], input: &[u8], text: &mut [u8]) -> Reply
    requires { max_text ≤ length text.old }
    ensures text_after { take result.length text.new ≡ (reply (split_words arguments.now) input.now).text }
    ensures length_in_bounds { result.length ≤ length text.new }
    ensures status_value { result.status ≡ (reply (split_words arguments.now) input.now).status }
{
    reply(arguments, input, text)
}

// A tape isn't written to a terminal.
fn is_tape_to_terminal(rt: HostRuntime, arguments: &[u8]) -> bool {
    rt.stdout().is_terminal() && writes_tape(arguments)
}
