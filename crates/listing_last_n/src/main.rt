// Prints the listing whose order ends with image n, for ring scripts that were built on it, of the stored cost table, in either
// form, that standard input begins with. What was read counts as the input, also where a read fails.
#![tactic(auto)]

use intake::read_full;
use listing_text::LONGEST_TABLE;
use std::io;

fn main(rt: HostRuntime) -> io::Result<()> {
    let mut input = [0u8; LONGEST_TABLE];
    let count = read_full(&mut rt.stdin(), &mut input);
    let text = listing_text::listing_last_n(&input[..count]);
    rt.write_all(text.as_bytes())
}
