// Standard input and output of the programs. What can't be read or written is told on standard error.
#![tactic(auto)]

ghost use Rattle.std.specs.Prelude.{◌≤◌, length, IfOk};

use std::io;
use std::io::{Read, Write};

// Something can't be read or written, which is told.
#[derive(Clone, Copy)]
pub struct Told;

// Reads standard input into the row, from its start, until the input ends or the row is full, and answers how many bytes were read.
pub fn read_input(rt: HostRuntime, row: &mut [u8]) -> Result<usize, Told>
    ensures { IfOk result (λ count. count ≤ length row.new) }
{
    let mut done: usize = 0;
    while done < row.len() {
        let count = read_piece(rt, &mut row[done..])?;
        if count == 0 {
            break;
        }
        done += count;
    }
    Ok(done)
}

// Reads once, into the row's start, and answers how many bytes were read.
pub fn read_piece(rt: HostRuntime, row: &mut [u8]) -> Result<usize, Told>
    ensures { IfOk result (λ count. count ≤ length row.new) }
{
    rt.stdin()
        .read(row)
        .map_err(|error| tell(rt, "fibexp: standard input", &error))
}

// Writes a text to standard output.
pub fn write_output(rt: HostRuntime, text: &[u8]) -> Result<(), Told> {
    rt.stdout()
        .write_all(text)
        .map_err(|error| tell(rt, "fibexp: standard output", &error))
}

// Writes a text to standard error, and answers whether all of it was taken.
pub fn write_error(rt: HostRuntime, text: &[u8]) -> bool {
    rt.stderr().write_all(text).is_ok()
}

// Tells what failed and why, as C's perror does. Where memory for the reason is lacking, it tells what failed.
fn tell(rt: HostRuntime, what: &str, error: &io::Error) -> Told {
    let _told = match format!(in rt.alloc(); "{error}") {
        Ok(text) => {
            let reason = without_number(text.as_str());
            eprintln!(rt; "{what}: {reason}").is_ok()
        }
        Err(_) => eprintln!(rt; "{what}").is_ok(),
    };
    Told
}

// The reason without the system's number, in which the error's text ends.
fn without_number(text: &str) -> &str {
    text.split_once(" (os error ")
        .map_or(text, |(reason, _)| reason)
}
