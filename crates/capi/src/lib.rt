// The C interface: each service under a plain name, for C and Rust to link, and the command-line tool. include/fibexp.h declares these
// functions. Each service but `fibexp_hofstadter` and `fibexp_height`, which refuse nothing, answers the refusal's number, 0 on success,
// and writes through its references only then; `fibexp_listing` writes the line of a refused tape too. `fibexp_reply` and `fibexp_reads`
// are the tool.
#![tactic(auto)]

ghost use Rattle.std.specs.Prelude.{◌≡◌, ℕ, ◌≤◌, ◌^◌, ◌<◌, length, take, drop};
ghost use Rattle.refusal.specs.Outcomes.{answered, outcome_of, refusal_number, after};
ghost use Rattle.modular.specs.Inverses.{inverse_outcome};
ghost use Rattle.fibonacci.specs.Hofstadter.{G};
ghost use Rattle.fibonacci.specs.Height.{height};
ghost use Rattle.fibonacci.specs.Services.{fibonacci_outcome, places_outcome, places_buffer, number_outcome, bit};
ghost use Rattle.tables.specs.Tables.{list_outcome};
ghost use Rattle.program.specs.Services.{room_outcome, build_outcome, build_buffer, check_outcome};
ghost use Rattle.sequencer.specs.Records.{row_outcome, record_in};
ghost use Rattle.sequencer.specs.Services.{load_outcome, run_outcome, trace_outcome, cut_outcome, cut_part, cut_start, cut_count};
ghost use Rattle.sequencer.specs.Bases.{raise_outcome, raised_bases};
ghost use Rattle.sequencer.specs.Sessions.{step_outcome, is_backward};
ghost use Rattle.sequencer.specs.Previews.{preview_outcome, registers_outcome, counts_outcome};
ghost use Rattle.sequencer.specs.Tables.{table_outcome};
ghost use Rattle.listing.specs.Listing.{listing_of, listing_answer, listing_buffer};
ghost use Rattle.text.specs.Reading.{split_words};
ghost use Rattle.text.specs.Rows.{Put};
ghost use Rattle.tool.specs.Replies.{reply, reads_tape};
ghost use Rattle.tool.specs.Rows.{max_text};

use memory::{bit, number_of, record_in, store, store_preview};
use refusal::Refusal;

// A Fibonacci number by its index: 13.
#[unsafe(no_mangle)]
pub extern "C" fn fibexp_fibonacci(index: u32, value: &mut u64) -> u32
    ensures value { result ≡ refusal_number (fibonacci_outcome index) }
    ensures value_after { value.new ≡ after (fibonacci_outcome index) value.old }
{
    store(golden::fibonacci(index), value)
}

// Number to list: 5.
#[unsafe(no_mangle)]
pub extern "C" fn fibexp_places(n: u64, places: &mut [u8], count: &mut u32) -> u32
    ensures value { result ≡ refusal_number (places_outcome n (length places.old)) }
    ensures places_after { places.new ≡ places_buffer n places.old }
    ensures count_after { count.new ≡ after (places_outcome n (length places.old)) count.old }
{
    store_u32(places::places(n, places), count)
}

// List to number: 13, 12.
#[unsafe(no_mangle)]
pub extern "C" fn fibexp_number(places: &[u8], n: &mut u64) -> u32
    ensures value { result ≡ refusal_number (number_outcome places.now) }
    ensures n_after { n.new ≡ after (number_outcome places.now) n.old }
{
    store(places::number_of_places(places), n)
}

// Hofstadter's G, which refuses nothing: the answer is G(n) itself.
#[unsafe(no_mangle)]
pub extern "C" fn fibexp_hofstadter(n: u64) -> u64
    ensures { result ≡ G n }
{
    golden::hofstadter(n)
}

// Document 01's h, which refuses nothing either: the least positive number with r < phi^h.
#[unsafe(no_mangle)]
pub extern "C" fn fibexp_height(r: u32) -> u32
    ensures { result ≡ height r }
{
    golden::height(r)
}

// The inverse of k modulo r: 2, 3.
#[unsafe(no_mangle)]
pub extern "C" fn fibexp_inverse(k: u32, r: u32, inverse: &mut u32) -> u32
    ensures value { result ≡ refusal_number (inverse_outcome k r) }
    ensures inverse_after { inverse.new ≡ after (inverse_outcome k r) inverse.old }
{
    store_u32(modular::inverse(k, r), inverse)
}

// Build: 1, 2, 3, 4, 5.
#[unsafe(no_mangle)]
pub extern "C" fn fibexp_build(
    p: u32,
    r: u32,
    k: u32,
    variant: u32,
    words: &mut [u32],
    count: &mut u32,
) -> u32
    ensures value { result ≡ refusal_number (build_outcome p r k variant (length words.old)) }
    ensures words_after { words.new ≡ build_buffer p r k variant words.old }
    ensures count_after { count.new ≡ after (build_outcome p r k variant (length words.old)) count.old }
{
    store_u32(building::build(p, r, k, variant, words), count)
}

// Check: 6, 7, 4, 1 and, for named programs, 2, 3, 8.
#[unsafe(no_mangle)]
pub extern "C" fn fibexp_check(tape: &[u32]) -> u32
    ensures { result ≡ refusal_number (check_outcome tape.now) }
{
    number_of(accepting::check(tape))
}

// Load, a record of the four registers and the position: check's refusals, 9, 11.
#[unsafe(no_mangle)]
pub extern "C" fn fibexp_load(tape: &[u32], base: u32, row: &mut [u32; 5]) -> u32
    ensures value { result ≡ refusal_number (load_outcome tape.now base) }
    ensures row_after { row.new ≡ after (row_outcome (load_outcome tape.now base)) row.old }
{
    store(running::load(tape, base), row)
}

// Run, in place: check's refusals, 9, 10.
#[unsafe(no_mangle)]
pub extern "C" fn fibexp_run(tape: &[u32], row: &mut [u32; 5], to: u32) -> u32
    ensures value { result ≡ refusal_number (run_outcome tape.now (record_in row.old) to) }
    ensures row_after { row.new ≡ after (row_outcome (run_outcome tape.now (record_in row.old) to)) row.old }
{
    let held = record_in(*row);
    store(running::run(tape, held, to), row)
}

// A single step, in place, forward where `backward` is 0: check's refusals, 9, 10.
#[unsafe(no_mangle)]
pub extern "C" fn fibexp_step(tape: &[u32], row: &mut [u32; 5], backward: u32) -> u32
    ensures value { result ≡ refusal_number (step_outcome tape.now (record_in row.old) (is_backward backward)) }
    ensures row_after { row.new ≡ after (row_outcome (step_outcome tape.now (record_in row.old) (is_backward backward))) row.old }
{
    let held = record_in(*row);
    store(running::step(tape, held, backward != 0), row)
}

// The preview, the record only read: run's refusals.
#[unsafe(no_mangle)]
pub extern "C" fn fibexp_preview(
    tape: &[u32],
    row: &[u32; 5],
    to: u32,
    registers: &mut [u32; 4],
    counts: &mut [u32; 3],
) -> u32
    ensures value { result ≡ refusal_number (preview_outcome tape.now (record_in row.now) to) }
    ensures registers_after { registers.new ≡ after (registers_outcome (preview_outcome tape.now (record_in row.now) to)) registers.old }
    ensures counts_after { counts.new ≡ after (counts_outcome (preview_outcome tape.now (record_in row.now) to)) counts.old }
{
    let held = record_in(*row);
    store_preview(previewing::preview(tape, held, to), registers, counts)
}

// Many bases in one pass, in place: check's refusals, 4, 14, then 9 and 11 of each base.
#[unsafe(no_mangle)]
pub extern "C" fn fibexp_raise(tape: &[u32], bases: &mut [u32]) -> u32
    ensures value { result ≡ refusal_number (raise_outcome tape.now bases.old) }
    ensures bases_after { bases.new ≡ raised_bases tape.now bases.old }
{
    number_of(raising::raise(tape, bases))
}

// Trace: check's refusals, 10, 12.
#[unsafe(no_mangle)]
pub extern "C" fn fibexp_trace(tape: &[u32], position: u32, exponents: &mut [i64; 4]) -> u32
    ensures value { result ≡ refusal_number (trace_outcome tape.now position) }
    ensures exponents_after { exponents.new ≡ after (trace_outcome tape.now position) exponents.old }
{
    store(inspecting::trace(tape, position), exponents)
}

// The table at a position, row by row: check's refusals, 10, 12.
#[unsafe(no_mangle)]
pub extern "C" fn fibexp_table(tape: &[u32], position: u32, table: &mut [i64; 16]) -> u32
    ensures value { result ≡ refusal_number (table_outcome tape.now position) }
    ensures table_after { table.new ≡ after (list_outcome (table_outcome tape.now position)) table.old }
{
    store(inspecting::table(tape, position), table)
}

// Cut: check's refusals, 10. On success the count's words from the start on are the part that cut gives.
#[unsafe(no_mangle)]
pub extern "C" fn fibexp_cut(
    tape: &[u32],
    first: u32,
    last: u32,
    start: &mut u32,
    count: &mut u32,
) -> u32
    ensures value { result ≡ refusal_number (cut_outcome tape.now first last) }
    ensures start_after { start.new ≡ after (cut_start tape.now first last) start.old }
    ensures count_after { count.new ≡ after (cut_count tape.now first last) count.old }
    ensures tape_after { result ≡ 0 → take count.new (drop start.new tape.now) ≡ cut_part (cut_outcome tape.now first last) }
{
    let answer = inspecting::cut(tape, first, last);
    if let Err(e) = answer.verdict {
        return u32::from(e);
    }
    *start = parts::step_index(tape, first) as u32;
    *count = answer.part.len() as u32;
    0
}

// The listing of a tape that is given as bytes: 5 and nothing written where the row is shorter, else the listing's own number, which
// is 6 or one of check's where its line is that of a refusal.
#[unsafe(no_mangle)]
pub extern "C" fn fibexp_listing(bytes: &[u8], lines: &mut [u8], written: &mut u32) -> u32
    ensures value { result ≡ (listing_answer bytes.now (length lines.old)).number }
    ensures lines_after { lines.new ≡ listing_buffer bytes.now lines.old }
    ensures written_after { written.new ≡ after (room_outcome (listing_of bytes.now) (length lines.old)) written.old }
{
    let listed = lister::listing(bytes, lines);
    // no listing is empty
    if listed.written == 0 {
        return listed.number;
    }
    *written = listed.written as u32;
    listed.number
}

// The tool's reply to a command line and standard input: its status, 0 answered, 1 refused, 2 not understood. Its text is put from the
// buffer's start, and `written` is how many bytes of it stand there; in a row of `tool::MAX_TEXT` bytes or more, all. The arguments are the
// words after the tool's name, a zero byte after each.
#[unsafe(no_mangle)]
pub extern "C" fn fibexp_reply(
    arguments: &[u8],
    input: &[u8],
    text: &mut [u8],
    written: &mut usize,
) -> u32
    ensures value { result ≡ (reply (split_words arguments.now) input.now).status }
    ensures put { Put text.old 0 (reply (split_words arguments.now) input.now).text written.new text.new }
    ensures short { length (reply (split_words arguments.now) input.now).text ≤ max_text }
{
    let told = command::reply(arguments, input, text);
    *written = told.length;
    told.status
}

// 1 where the tool reads a tape from standard input for a command line, else 0.
#[unsafe(no_mangle)]
pub extern "C" fn fibexp_reads(arguments: &[u8]) -> u32
    ensures { result ≡ bit (reads_tape (split_words arguments.now)) }
{
    bit(arguments::reads_tape(arguments))
}

// Stores an answer that fits 32 bits.
fn store_u32(answer: Result<u64, Refusal>, place: &mut u32) -> u32
    requires { (x : ℕ) → outcome_of answer ≡ answered x → x < 2 ^ 32 }
    ensures value { result ≡ refusal_number (outcome_of answer) }
    ensures place_after { place.new ≡ after (outcome_of answer) place.old }
{
    store(
        answer.map(
            |x| -> u32
                requires { x < 2 ^ 32 }
                ensures { result ≡ x }
            { x as u32 },
        ),
        place,
    )
}
