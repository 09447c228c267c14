// Prints the term report over the stored cost tables, in either form, that standard input holds one behind another, up to 500: figures, a
// line for each far side seen, and where a table was refused its number and refusal. What was read counts as the input, also where a read
// fails.
#![tactic(auto)]

use intake::read_full;
use std::io;
use term_text::LONGEST_INPUT;

// Reads standard input into the lent places, as far as they go, and prints the report over it.
fn print_report(rt: &(impl Input + Print), input: &mut [u8]) -> io::Result<()> {
    let count = read_full(&mut rt.reader(), input);
    let text = term_text::term_report(&input[..count]);
    rt.write_all(text.as_bytes())
}

fn main(rt: HostRuntime) -> io::Result<()> {
    let mut input = [0u8; LONGEST_INPUT];
    print_report(&rt, &mut input)
}
