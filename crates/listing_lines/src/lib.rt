// The lines of a listing. Every function takes the place where its text begins and answers the place behind it.
#![tactic(auto)]

ghost use Rattle.std.specs.Prelude.{◌≤◌, length};
ghost use Rattle.listing_lines.specs.Lines.{header, order_line, reading_text, refused_line, row_line, row_lines};
ghost use Rattle.text.specs.Putting.{Fits, Put};

use ground::Refusal;

// The first line: how many images, and how many rows.
#[tactic(auto, unfolding(crate::specs::Lines::header, text::specs::Words::bytes_of))]
fn put_header(out: &mut [u8], at: usize, n: usize, rows: usize) -> usize
    requires { Fits (header n rows) at out.old }
    ensures { Put (header n rows) at out.old result out.new }
{
    let p = text::put_word(out, at, b"images");
    let q = text::put_field(out, p, n as u64);
    let w = text::put_word(out, q, b" rows");
    let e = text::put_field(out, w, rows as u64);
    text::put_byte(out, e, 10)
}

// The line of a row: far side, doubled cost, upper row.
#[tactic(auto, unfolding(crate::specs::Lines::row_line))]
fn put_row(out: &mut [u8], at: usize, far: u64, cost: u32, upper: u32) -> usize
    requires { Fits (row_line far cost upper) at out.old }
    ensures { Put (row_line far cost upper) at out.old result out.new }
{
    let p = text::put_number(out, at, far);
    let q = text::put_field(out, p, cost as u64);
    let e = text::put_field(out, q, upper as u64);
    text::put_byte(out, e, 10)
}

// The lines of all rows.
#[tactic(auto, using(crate::proofs::Laws::Turns::row_fits, crate::proofs::Laws::Turns::all_rows))]
fn put_rows(out: &mut [u8], at: usize, fars: &[u64], costs: &[u32], above: &[u32]) -> usize
    requires { (length fars.now ≤ length costs.now) × (length fars.now ≤ length above.now) × Fits
        (row_lines fars.now costs.now above.now) at out.old }
    ensures { Put (row_lines fars.now costs.now above.now) at out.old result out.new }
{
    let mut place = at;
    for i in 0..fars.len() {
        place = put_row(out, place, fars[i], costs[i], above[i]);
    }
    place
}

// The last line: the images in their order.
#[tactic(auto, unfolding(crate::specs::Lines::order_line, text::specs::Words::bytes_of))]
fn put_order(out: &mut [u8], at: usize, around: &[u32]) -> usize
    requires { Fits (order_line around.now) at out.old }
    ensures { Put (order_line around.now) at out.old result out.new }
{
    let p = text::put_word(out, at, b"order");
    let e = text::put_fields(out, p, around);
    text::put_byte(out, e, 10)
}

// The line of a refusal: its number and its four places.
#[tactic(auto, unfolding(crate::specs::Lines::refused_line, text::specs::Words::bytes_of))]
pub fn put_refusal(out: &mut [u8], at: usize, q: Refusal) -> usize
    requires { Fits (refused_line q) at out.old }
    ensures { Put (refused_line q) at out.old result out.new }
{
    let w = text::put_word(out, at, b"refused");
    let number = text::put_field(out, w, q.number as u64);
    let a = text::put_field(out, number, q.a as u64);
    let b = text::put_field(out, a, q.b as u64);
    let c = text::put_field(out, b, q.c as u64);
    let d = text::put_field(out, c, q.d as u64);
    text::put_byte(out, d, 10)
}

// Header, rows and order.
#[tactic(auto, unfolding(crate::specs::Lines::reading_text))]
pub fn put_reading(
    out: &mut [u8],
    n: usize,
    fars: &[u64],
    costs: &[u32],
    above: &[u32],
    around: &[u32],
) -> usize
    requires { (length fars.now ≤ length costs.now) × (length fars.now ≤ length above.now) × Fits
        (reading_text n fars.now costs.now above.now around.now) 0 out.old }
    ensures { Put (reading_text n fars.now costs.now above.now around.now) 0 out.old result
        out.new }
{
    let p = put_header(out, 0, n, fars.len());
    let q = put_rows(out, p, fars, costs, above);
    put_order(out, q, around)
}
