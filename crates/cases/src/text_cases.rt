// Cases of the text of an answer: the six numbers of its head, and the output.
use case_text::{Arguments, show, show_answer};
use std::io;

// Reads the arguments, makes the call, and prints what it answers and leaves.
pub fn text_case(rt: &impl Print, arguments: &mut Arguments<'_>) -> io::Result<()> {
    let number = arguments.size();
    let table = arguments.size();
    let a = arguments.size();
    let b = arguments.size();
    let c = arguments.size();
    let d = arguments.size();
    let mut bytes = [0u8; 5200];
    let out = arguments.take(&mut bytes);
    show_answer(
        rt,
        refusal_text::refusal_text(number, table, a, b, c, d, out),
    )?;
    show(rt, out)
}
