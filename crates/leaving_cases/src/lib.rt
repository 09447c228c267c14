// The cases of images that leave: n, the cost table of the start, the events, and the two outputs.
#![tactic(auto)]

use case_text::{Arguments, show, show_refusal};
use std::io;

// Reads the arguments, makes the call, and prints what it answers and leaves. What is left stands behind a refusal too.
pub fn replay_case(rt: &impl Print, arguments: &mut Arguments<'_>) -> io::Result<()> {
    let n = arguments.size();
    let mut entries = [0u32; 4200];
    let t = arguments.take(&mut entries);
    let mut given = [0u8; 5900];
    let events = arguments.take(&mut given);
    let mut sides = [0u64; 4200];
    let fars = arguments.take(&mut sides);
    let mut doubled = [0u32; 4200];
    let costs = arguments.take(&mut doubled);
    let answer = leaving::replay(n, t, events, fars, costs);
    match answer.stop {
        Ok(()) => print!(rt; "0")?,
        Err(r) => show_refusal(rt, r)?,
    }
    print!(rt; " {} {} {}", answer.images, answer.rows, answer.event)?;
    show(rt, fars)?;
    show(rt, costs)
}
