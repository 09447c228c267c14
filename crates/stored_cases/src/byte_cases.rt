// Cases that begin with stored bytes and a position. Each function reads the arguments, makes its call, and prints what the call answers and
// leaves.
use case_text::{Arguments, show, show_refusal};
use ground::Refusal;
use std::io;
use stored_costs::CostsRead;
use stored_links::LinksRead;

// Prints the answer of the reader of stored cost tables.
pub fn show_costs_read(rt: &impl Print, answer: Result<CostsRead, Refusal>) -> io::Result<()> {
    match answer {
        Ok(CostsRead { n, used }) => print!(rt; "0 {n} {used}"),
        Err(r) => show_refusal(rt, r),
    }
}

pub fn read_costs_case(rt: &impl Print, arguments: &mut Arguments<'_>) -> io::Result<()> {
    let mut given = [0u8; 5900];
    let bytes = arguments.take(&mut given);
    let position = arguments.size();
    let mut places = [0u32; 4200];
    let out = arguments.take(&mut places);
    show_costs_read(rt, stored_costs::read_costs(bytes, position, out))?;
    show(rt, out)
}

// Prints the answer of the reader of stored link tables.
pub fn show_links_read(rt: &impl Print, answer: Result<LinksRead, Refusal>) -> io::Result<()> {
    match answer {
        Ok(LinksRead { n, count, used }) => print!(rt; "0 {n} {count} {used}"),
        Err(r) => show_refusal(rt, r),
    }
}

pub fn read_links_case(rt: &impl Print, arguments: &mut Arguments<'_>) -> io::Result<()> {
    let mut given = [0u8; 5900];
    let bytes = arguments.take(&mut given);
    let position = arguments.size();
    let mut sides = [0u64; 4200];
    let fars = arguments.take(&mut sides);
    let mut doubled = [0u32; 4200];
    let costs = arguments.take(&mut doubled);
    show_links_read(rt, stored_links::read_links(bytes, position, fars, costs))?;
    show(rt, fars)?;
    show(rt, costs)
}
