// The listing program: reads a tape as bytes from standard input and prints its listing.
#![tactic(auto)]

use encoding::MAX_BYTES;
use lister::listing;
use listing::MAX_WRITTEN;
use streams::{read_input, write_output};

// One byte more than a tape has is enough to see that there are too many.
const MAX_READ: usize = MAX_BYTES + 1;

fn main(rt: HostRuntime) {
    let mut bytes = [0u8; MAX_READ];
    let Ok(count) = read_input(rt, &mut bytes) else {
        return;
    };
    let mut lines = [0u8; MAX_WRITTEN];
    let listed = listing(&bytes[..count], &mut lines);
    let _taken = write_output(rt, &lines[..listed.written]);
}
