// The cases of the calls for Newick text: the writer, whose cases begin with a link table, and the reader, whose cases begin with the bytes
// of a text. Each function reads the arguments, makes its call, and prints what it answers and leaves.
#![tactic(auto)]

use case_text::{Arguments, show, show_answer, show_refusal};
use newick_reader::TreeRead;
use std::io;

pub fn write_newick_case(rt: &impl Print, arguments: &mut Arguments<'_>) -> io::Result<()> {
    let n = arguments.size();
    let rows = arguments.size();
    let mut sides = [0u64; 4200];
    let fars = arguments.take(&mut sides);
    let mut doubled = [0u32; 4200];
    let costs = arguments.take(&mut doubled);
    let mut bytes = [0u8; 5900];
    let out = arguments.take(&mut bytes);
    show_answer(rt, newick_writer::write_newick(n, rows, fars, costs, out))?;
    show(rt, out)
}

pub fn read_newick_case(rt: &impl Print, arguments: &mut Arguments<'_>) -> io::Result<()> {
    let mut given = [0u8; 5900];
    let bytes = arguments.take(&mut given);
    let mut sides = [0u64; 4200];
    let fars = arguments.take(&mut sides);
    let mut doubled = [0u32; 4200];
    let costs = arguments.take(&mut doubled);
    match newick_reader::read_newick(bytes, fars, costs) {
        Ok(TreeRead { n, count }) => print!(rt; "0 {n} {count}")?,
        Err(r) => show_refusal(rt, r)?,
    }
    show(rt, fars)?;
    show(rt, costs)
}
