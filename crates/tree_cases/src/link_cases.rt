// Cases that begin with n, a row count and a link table. Each function reads the arguments, makes its call, and prints what the call answers
// and leaves.
use case_text::{Arguments, show, show_answer};
use std::io;

pub fn path_case(rt: &impl Print, arguments: &mut Arguments<'_>) -> io::Result<()> {
    let n = arguments.size();
    let rows = arguments.size();
    let mut sides = [0u64; 4200];
    let fars = arguments.take(&mut sides);
    let mut doubled = [0u32; 4200];
    let costs = arguments.take(&mut doubled);
    let i = arguments.size();
    let j = arguments.size();
    show_answer(rt, routes::path(n, rows, fars, costs, i, j))
}

pub fn upper_rows_case(rt: &impl Print, arguments: &mut Arguments<'_>) -> io::Result<()> {
    let n = arguments.size();
    let rows = arguments.size();
    let mut sides = [0u64; 4200];
    let fars = arguments.take(&mut sides);
    let mut doubled = [0u32; 4200];
    let costs = arguments.take(&mut doubled);
    let mut places = [0u32; 4200];
    let out = arguments.take(&mut places);
    show_answer(rt, routes::upper_rows(n, rows, fars, costs, out))?;
    show(rt, out)
}

pub fn route_case(rt: &impl Print, arguments: &mut Arguments<'_>) -> io::Result<()> {
    let n = arguments.size();
    let rows = arguments.size();
    let mut sides = [0u64; 4200];
    let fars = arguments.take(&mut sides);
    let mut doubled = [0u32; 4200];
    let costs = arguments.take(&mut doubled);
    let i = arguments.size();
    let mut places = [0u32; 4200];
    let out = arguments.take(&mut places);
    show_answer(rt, routes::route(n, rows, fars, costs, i, out))?;
    show(rt, out)
}
