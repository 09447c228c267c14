// Cases of the links that a team shares: n, the number of tables, the joined tables, the two outputs.
use case_text::{Arguments, show, show_table_answer};
use std::io;

// Reads the arguments, makes the call, and prints what it answers and leaves. Sixteen tables of 64 images have 65,536 entries.
pub fn team_case(rt: &impl Print, arguments: &mut Arguments<'_>) -> io::Result<()> {
    let n = arguments.size();
    let number = arguments.size();
    let mut entries = [0u32; 65600];
    let tables = arguments.take(&mut entries);
    let mut sides = [0u64; 4200];
    let fars = arguments.take(&mut sides);
    let mut doubled = [0u32; 4200];
    let costs = arguments.take(&mut doubled);
    show_table_answer(rt, consensus::consensus(n, number, tables, fars, costs))?;
    show(rt, fars)?;
    show(rt, costs)
}
