// The cases of calls that write stored bytes, which all begin with the form: the two writers, the batch, and the two conversions. Each
// function reads the arguments, makes its call, and prints what it answers and leaves.
#![tactic(auto)]

use bits::Edition;
use case_text::{Arguments, show, show_answer, show_table_answer};
use std::io;

pub fn write_costs_case(rt: &impl Print, arguments: &mut Arguments<'_>) -> io::Result<()> {
    let edition = Edition::from(arguments.size());
    let n = arguments.size();
    let mut entries = [0u32; 4200];
    let t = arguments.take(&mut entries);
    let mut bytes = [0u8; 5900];
    let out = arguments.take(&mut bytes);
    show_answer(rt, cost_writer::write_costs(edition, n, t, out))?;
    show(rt, out)
}

pub fn write_links_case(rt: &impl Print, arguments: &mut Arguments<'_>) -> io::Result<()> {
    let edition = Edition::from(arguments.size());
    let n = arguments.size();
    let rows = arguments.size();
    let mut sides = [0u64; 4200];
    let fars = arguments.take(&mut sides);
    let mut doubled = [0u32; 4200];
    let costs = arguments.take(&mut doubled);
    let mut bytes = [0u8; 5900];
    let out = arguments.take(&mut bytes);
    show_answer(
        rt,
        link_writer::write_links(edition, n, rows, fars, costs, out),
    )?;
    show(rt, out)
}

// The n and the row counts stand before the joined rows.
pub fn write_batch_case(rt: &impl Print, arguments: &mut Arguments<'_>) -> io::Result<()> {
    let edition = Edition::from(arguments.size());
    let mut images = [0u32; 4200];
    let ns = arguments.take(&mut images);
    let mut rows = [0u32; 4200];
    let counts = arguments.take(&mut rows);
    let mut sides = [0u64; 4200];
    let fars = arguments.take(&mut sides);
    let mut doubled = [0u32; 4200];
    let costs = arguments.take(&mut doubled);
    let mut bytes = [0u8; 5900];
    let out = arguments.take(&mut bytes);
    show_table_answer(
        rt,
        batch::write_batch(edition, ns, counts, fars, costs, out),
    )?;
    show(rt, out)
}

pub fn convert_costs_case(rt: &impl Print, arguments: &mut Arguments<'_>) -> io::Result<()> {
    let edition = Edition::from(arguments.size());
    let mut given = [0u8; 5900];
    let stored = arguments.take(&mut given);
    let mut bytes = [0u8; 5900];
    let out = arguments.take(&mut bytes);
    show_answer(rt, conversion::convert_costs(edition, stored, out))?;
    show(rt, out)
}

pub fn convert_links_case(rt: &impl Print, arguments: &mut Arguments<'_>) -> io::Result<()> {
    let edition = Edition::from(arguments.size());
    let mut given = [0u8; 5900];
    let stored = arguments.take(&mut given);
    let mut bytes = [0u8; 5900];
    let out = arguments.take(&mut bytes);
    show_answer(rt, conversion::convert_links(edition, stored, out))?;
    show(rt, out)
}
