// Cases of the reader, by the functions that make one, put it at a position and take with it; and of two cost tables that are accepted
// together. Each function reads the arguments, makes its call, and prints what the call answers and leaves. Where the reader stands is printed
// behind each answer.
use crate::byte_cases::{show_costs_read, show_links_read};
use case_text::{Arguments, show, show_answer, show_table_refusal};
use reader::TwoRead;
use std::io;

pub fn first_two_case(rt: &impl Print, arguments: &mut Arguments<'_>) -> io::Result<()> {
    let mut given = [0u8; 11800];
    let bytes = arguments.take(&mut given);
    let position = arguments.size();
    let mut one = [0u32; 4200];
    let first = arguments.take(&mut one);
    let mut other = [0u32; 4200];
    let second = arguments.take(&mut other);
    let taken = reader::first_two(bytes, position, first, second);
    show_costs_read(rt, taken.first)?;
    print!(rt; " {} ", taken.between)?;
    show_costs_read(rt, taken.second)?;
    print!(rt; " {}", taken.position)?;
    show(rt, first)?;
    show(rt, second)
}

pub fn first_links_case(rt: &impl Print, arguments: &mut Arguments<'_>) -> io::Result<()> {
    let mut given = [0u8; 11800];
    let bytes = arguments.take(&mut given);
    let position = arguments.size();
    let mut sides = [0u64; 4200];
    let fars = arguments.take(&mut sides);
    let mut doubled = [0u32; 4200];
    let costs = arguments.take(&mut doubled);
    let taken = reader::first_links(bytes, position, fars, costs);
    show_links_read(rt, taken.table)?;
    print!(rt; " {}", taken.position)?;
    show(rt, fars)?;
    show(rt, costs)
}

pub fn two_costs_case(rt: &impl Print, arguments: &mut Arguments<'_>) -> io::Result<()> {
    let mut given = [0u8; 11800];
    let bytes = arguments.take(&mut given);
    let mut one = [0u32; 4200];
    let first = arguments.take(&mut one);
    let mut other = [0u32; 4200];
    let second = arguments.take(&mut other);
    match reader::two_costs(bytes, first, second) {
        Ok(
            TwoRead {
                first,
                second,
                used,
            },
        ) => print!(rt; "0 {first} {second} {used}")?,
        Err(r) => show_table_refusal(rt, r)?,
    }
    show(rt, first)?;
    show(rt, second)
}

pub fn two_fields_case(rt: &impl Print, arguments: &mut Arguments<'_>) -> io::Result<()> {
    let mut given = [0u8; 11800];
    let bytes = arguments.take(&mut given);
    let position = arguments.size();
    let first = arguments.size();
    let second = arguments.size();
    let taken = reader::two_fields(bytes, position, first, second);
    show_answer(rt, taken.first)?;
    print!(rt; " {} ", taken.between)?;
    show_answer(rt, taken.second)?;
    print!(rt; " {}", taken.position)
}
