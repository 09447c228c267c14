// The text that the program `term` prints: the term report over the stored cost tables in the bytes. Every function that writes takes the
// place where its text begins and answers the place behind it.
#![tactic(auto)]

ghost use Rattle.std.specs.Prelude.{Err, ◌++◌, ◌≤◌, length};
ghost use Rattle.listing_lines.specs.Lines.{row_line, row_lines};
ghost use Rattle.report.specs.Outcome.{end_in, seen_as, table_in};
ghost use Rattle.term_text.specs.Lines.{end_line, figures_line, pairs_line, sides_line};
ghost use Rattle.term_text.specs.Text.{Printed, Within, report_with, room, term_text};
ghost use Rattle.text.specs.Fields.{field};
ghost use Rattle.text.specs.Putting.{Fits, Put};

use figures::Figures;
use ground::TableRefusal;
use report::TermReport;
use text::Text;

// A number behind its word.
fn put_named(out: &mut [u8], at: usize, word: &[u8], x: usize) -> usize
    requires { Fits (word.now ++ field x) at out.old }
    ensures { Put (word.now ++ field x) at out.old result out.new }
{
    let p = text::put_word(out, at, word);
    text::put_field(out, p, x as u64)
}

// The first line: images, tables read, tables accepted, tables that got 7, bytes used.
#[tactic(auto, unfolding(crate::specs::Lines::figures_line, text::specs::Words::bytes_of))]
fn put_figures(out: &mut [u8], at: usize, figures: Figures) -> usize
    requires { Fits (figures_line figures) at out.old }
    ensures { Put (figures_line figures) at out.old result out.new }
{
    let p = put_named(out, at, b"images", figures.images);
    let q = put_named(out, p, b" tables", figures.tables);
    let w = put_named(out, q, b" accepted", figures.accepted);
    let v = put_named(out, w, b" apart", figures.apart);
    let e = put_named(out, v, b" bytes", figures.used);
    text::put_byte(out, e, 10)
}

// The second line: the pairs, and the sum and the largest of their counts.
#[tactic(auto, unfolding(crate::specs::Lines::pairs_line, text::specs::Words::bytes_of))]
fn put_pairs(out: &mut [u8], at: usize, figures: Figures) -> usize
    requires { Fits (pairs_line figures) at out.old }
    ensures { Put (pairs_line figures) at out.old result out.new }
{
    let p = put_named(out, at, b"pairs", figures.pairs);
    let q = put_named(out, p, b" counts", figures.count_sum);
    let e = put_named(out, q, b" largest", figures.largest_count);
    text::put_byte(out, e, 10)
}

// The third line: how many far sides were seen.
#[tactic(auto, unfolding(crate::specs::Lines::sides_line, text::specs::Words::bytes_of))]
fn put_count(out: &mut [u8], at: usize, sides: usize) -> usize
    requires { Fits (sides_line sides) at out.old }
    ensures { Put (sides_line sides) at out.old result out.new }
{
    let e = put_named(out, at, b"sides", sides);
    text::put_byte(out, e, 10)
}

// The line of a far side: its name, in how many trees it is, and the sum of its doubled costs.
#[tactic(auto, unfolding(listing_lines::specs::Lines::row_line))]
fn put_side(out: &mut [u8], at: usize, far: u64, trees: u32, sum: u64) -> usize
    requires { Fits (row_line far trees sum) at out.old }
    ensures { Put (row_line far trees sum) at out.old result out.new }
{
    let p = text::put_number(out, at, far);
    let q = text::put_field(out, p, trees as u64);
    let e = text::put_field(out, q, sum);
    text::put_byte(out, e, 10)
}

// The lines of all far sides.
#[tactic(auto, using(listing_lines::proofs::Laws::Turns::row_fits, listing_lines::proofs::Laws::Turns::all_rows))]
fn put_sides(out: &mut [u8], at: usize, fars: &[u64], trees: &[u32], sums: &[u64]) -> usize
    requires { (length fars.now ≤ length trees.now) × (length fars.now ≤ length sums.now) × Fits
        (row_lines fars.now trees.now sums.now) at out.old }
    ensures { Put (row_lines fars.now trees.now sums.now) at out.old result out.new }
{
    let mut place = at;
    for i in 0..fars.len() {
        place = put_side(out, place, fars[i], trees[i], sums[i]);
    }
    place
}

// The line of a refused table: its number and its refusal.
#[tactic(auto, unfolding(crate::specs::Lines::end_line, text::specs::Words::bytes_of))]
fn put_refused(out: &mut [u8], at: usize, r: TableRefusal) -> usize
    requires { Fits (end_line r.table (Err r.refusal)) at out.old }
    ensures { Put (end_line r.table (Err r.refusal)) at out.old result out.new }
{
    let p = put_named(out, at, b"table", r.table);
    let w = text::put_byte(out, p, 32);
    listing_lines::put_refusal(out, w, r.refusal)
}

// The last line, where a table was refused.
#[tactic(auto, using(crate::specs::Laws::Left::end_passed, text::specs::Laws::Putting::over_nothing))]
fn put_end(out: &mut [u8], at: usize, stop: Result<(), TableRefusal>) -> usize
    requires { Fits (end_line (table_in stop) (end_in stop)) at out.old }
    ensures { Put (end_line (table_in stop) (end_in stop)) at out.old result out.new }
{
    match stop {
        Ok(()) => at,
        Err(r) => put_refused(out, at, r),
    }
}

// All lines of a report, whose entries stand in three slices.
#[tactic(auto, unfolding(crate::specs::Text::report_with))]
fn put_report(
    out: &mut [u8],
    answer: TermReport,
    fars: &[u64],
    trees: &[u32],
    sums: &[u64],
) -> usize
    requires { (length fars.now ≤ length trees.now) × (length fars.now ≤ length sums.now) × Fits
        (report_with (seen_as answer) (row_lines fars.now trees.now sums.now)) 0 out.old }
    ensures { Put (report_with (seen_as answer) (row_lines fars.now trees.now sums.now)) 0 out.old result
        out.new }
{
    let p = put_figures(out, 0, answer.figures);
    let q = put_pairs(out, p, answer.figures);
    let w = put_count(out, q, answer.figures.sides);
    let e = put_sides(out, w, fars, trees, sums);
    put_end(out, e, answer.stop)
}

// The report over the stored cost tables in the bytes. The three arrays have the places that it asks for, so it is never refused for room.
#[tactic(auto, using(crate::specs::Laws::Left::in_arrays))]
fn write_report(out: &mut [u8], bytes: &[u8]) -> usize
    requires { room ≤ length out.old }
    ensures { Put (term_text bytes.now) 0 out.old result out.new }
{
    let mut fars = [0u64; 1024];
    let mut trees = [0u32; 1024];
    let mut sums = [0u64; 1024];
    let answer = report::report(bytes, &mut fars, &mut trees, &mut sums);
    let sides = answer.figures.sides;
    put_report(out, answer, &fars[..sides], &trees[..sides], &sums[..sides])
}

// How many bytes 500 stored cost tables have at the most. Nothing behind them can matter to a report: `term_ignores` in specs/Ignored.antt.
pub const LONGEST_INPUT: usize = 2899000;

// What the program prints: the report over the stored cost tables in the bytes, up to 500, and what ended it where a table was refused.
#[tactic(auto, using(crate::specs::Promises::put_within))]
pub fn term_report(bytes: &[u8]) -> Text<66560>
    ensures printed { Printed bytes.now result.length result.bytes }
    ensures within { Within result.length result.bytes }
{
    let mut text = [0u8; 66560];
    let length = write_report(&mut text, bytes);
    Text {
        length,
        bytes: text,
    }
}
