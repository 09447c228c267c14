// The cases of the levels: n, the cost table, and the two outputs; and of their listing: stored bytes. Each function reads the arguments,
// makes the call, and prints what it answers and leaves.
#![tactic(auto)]

use case_text::{Arguments, show, show_answer};
use std::io;

pub fn levels_case(rt: &impl Print, arguments: &mut Arguments<'_>) -> io::Result<()> {
    let n = arguments.size();
    let mut entries = [0u32; 4200];
    let t = arguments.take(&mut entries);
    let mut sums = [0u64; 4200];
    let members = arguments.take(&mut sums);
    let mut costs = [0u32; 4200];
    let heights = arguments.take(&mut costs);
    show_answer(rt, levels::levels(n, t, members, heights))?;
    show(rt, members)?;
    show(rt, heights)
}

pub fn listing_case(rt: &impl Print, arguments: &mut Arguments<'_>) -> io::Result<()> {
    let mut given = [0u8; 5900];
    let bytes = arguments.take(&mut given);
    let listing = levels_text::levels_listing(bytes);
    print!(rt; "0")?;
    show(rt, &listing.bytes[..listing.length])
}
