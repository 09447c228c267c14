// Cases of the choice: two stored link tables.
use case_text::{Arguments, show, show_table_refusal};
use choice::Choice;
use std::io;

// Reads the arguments, makes the two calls, and prints the answer and the chosen part.
pub fn choice_case(rt: &impl Print, arguments: &mut Arguments<'_>) -> io::Result<()> {
    let mut one = [0u8; 5900];
    let first = arguments.take(&mut one);
    let mut other = [0u8; 5900];
    let second = arguments.take(&mut other);
    match choice::choice(first, second) {
        Ok(Choice { table, used }) => print!(rt; "0 {table} {used}")?,
        Err(r) => show_table_refusal(rt, r)?,
    }
    show(rt, choice::choose(first, second))
}
