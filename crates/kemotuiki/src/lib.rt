// The public calls for C and Fortran. Each is thin: it makes the Rattle call and turns the answer into numbers. A slice crosses as a
// pointer and a count.
#![tactic(auto)]

ghost use Rattle.std.specs.Prelude.{◌≡◌};
ghost use Rattle.ground.specs.Outcomes.{Left};
ghost use Rattle.theory.specs.Outcomes.{LeftRows};
ghost use Rattle.theory.specs.Tables.{limit};
ghost use Rattle.index.specs.Call.{index_answer};
ghost use Rattle.order.specs.Outcome.{order_outcome};
ghost use Rattle.tree.specs.Readings.{measured_outcome, exact_outcome};
ghost use Rattle.levels.specs.Outcome.{LeftLevels, levels_outcome};
ghost use Rattle.routes.specs.Outcomes.{path_outcome, upper_outcome, route_outcome};
ghost use Rattle.compare.specs.Call.{comparison};
ghost use Rattle.consensus.specs.Call.{consensus_outcome};
ghost use Rattle.leaving.specs.Outcome.{replay_outcome};
ghost use Rattle.report.specs.Outcome.{LeftReport, report_outcome};
ghost use Rattle.cost_writer.specs.Writing as costs-writing;
ghost use Rattle.stored_costs.specs.Outcomes as costs-reading;
ghost use Rattle.link_writer.specs.Writing as links-writing;
ghost use Rattle.stored_links.specs.Outcomes as links-reading;
ghost use Rattle.batch.specs.Batch.{batch_outcome};
ghost use Rattle.choice.specs.Call.{choice_either};
ghost use Rattle.conversion.specs.Costs.{costs_converted};
ghost use Rattle.conversion.specs.Links.{links_converted};
ghost use Rattle.newick_writer.specs.Writing as newick-writing;
ghost use Rattle.newick_reader.specs.Outcomes as newick-reading;
ghost use Rattle.refusal_text.specs.Text.{refusal_text_outcome};
ghost use Rattle.numbers.specs.Levels.{of_levels};
ghost use Rattle.numbers.specs.Numbers.{of_index, of_order, of_rows, of_path, of_comparison, of_shared};
ghost use Rattle.numbers.specs.Replays.{of_replayed};
ghost use Rattle.numbers.specs.Reports.{of_report};
ghost use Rattle.numbers.specs.Stored.{of_bytes, of_batched, of_costs, of_links, of_chosen, of_tree};
ghost use Rattle.kemotuiki.specs.Crossing.{crossed, crossed_levels, crossed_report, crossed_rows};
ghost use Rattle.bits.specs.Editions.{edition_by};
ghost use Rattle.cost_forms.specs.Form.{cost_form};
ghost use Rattle.link_forms.specs.Form.{link_form};

use bits::Edition;
use numbers::{
    KemotuikiBytes, KemotuikiChoice, KemotuikiComparison, KemotuikiCosts, KemotuikiIndex,
    KemotuikiLevels, KemotuikiLinks, KemotuikiOrder, KemotuikiPath, KemotuikiReplay,
    KemotuikiReport, KemotuikiRows, KemotuikiTree,
};

// The index of the division with the far side s.
#[unsafe(no_mangle)]
pub extern "C" fn kemotuiki_index(n: usize, t: &[u32], s: u64) -> KemotuikiIndex
    ensures { result ≡ of_index (index_answer limit n t.now s) }
{
    index::index(n, t, s).into()
}

// The order around the tree from first to last.
#[unsafe(no_mangle)]
pub extern "C" fn kemotuiki_order(
    n: usize,
    t: &[u32],
    first: usize,
    last: usize,
    out: &mut [u32],
) -> KemotuikiOrder
    ensures { Left (crossed of_order (order_outcome limit n t.now first last out.old)) result out.new }
{
    order::order(n, t, first, last, out).into()
}

// The measured reading.
#[unsafe(no_mangle)]
pub extern "C" fn kemotuiki_measured(
    n: usize,
    t: &[u32],
    fars: &mut [u64],
    costs: &mut [u32],
) -> KemotuikiRows
    ensures { LeftRows (crossed_rows of_rows (measured_outcome limit n t.now fars.old costs.old)) result
        fars.new costs.new }
{
    tree::measured(n, t, fars, costs).into()
}

// The exact reading.
#[unsafe(no_mangle)]
pub extern "C" fn kemotuiki_exact(
    n: usize,
    t: &[u32],
    fars: &mut [u64],
    costs: &mut [u32],
) -> KemotuikiRows
    ensures { LeftRows (crossed_rows of_rows (exact_outcome limit n t.now fars.old costs.old)) result
        fars.new costs.new }
{
    tree::exact(n, t, fars, costs).into()
}

// The exact reading by the second engine, which answers the same on every argument.
#[unsafe(no_mangle)]
pub extern "C" fn kemotuiki_exact_grafted(
    n: usize,
    t: &[u32],
    fars: &mut [u64],
    costs: &mut [u32],
) -> KemotuikiRows
    ensures { LeftRows (crossed_rows of_rows (exact_outcome limit n t.now fars.old costs.old)) result
        fars.new costs.new }
{
    graft::exact(n, t, fars, costs).into()
}

// The reading of levels: groups, and the height of each.
#[unsafe(no_mangle)]
pub extern "C" fn kemotuiki_levels(
    n: usize,
    t: &[u32],
    members: &mut [u64],
    heights: &mut [u32],
) -> KemotuikiLevels
    ensures { LeftLevels (crossed_levels of_levels (levels_outcome limit n t.now members.old heights.old)) result
        members.new heights.new }
{
    levels::levels(n, t, members, heights).into()
}

// The path cost of images i and j.
#[unsafe(no_mangle)]
pub extern "C" fn kemotuiki_path(
    n: usize,
    count: usize,
    fars: &[u64],
    costs: &[u32],
    i: usize,
    j: usize,
) -> KemotuikiPath
    ensures { result ≡ of_path (path_outcome limit n count fars.now costs.now i j) }
{
    routes::path(n, count, fars, costs, i, j).into()
}

// The upper row of each row.
#[unsafe(no_mangle)]
pub extern "C" fn kemotuiki_upper_rows(
    n: usize,
    count: usize,
    fars: &[u64],
    costs: &[u32],
    out: &mut [u32],
) -> KemotuikiRows
    ensures { Left (crossed of_rows (upper_outcome limit n count fars.now costs.now out.old)) result out.new }
{
    routes::upper_rows(n, count, fars, costs, out).into()
}

// The route of image i.
#[unsafe(no_mangle)]
pub extern "C" fn kemotuiki_route(
    n: usize,
    count: usize,
    fars: &[u64],
    costs: &[u32],
    i: usize,
    out: &mut [u32],
) -> KemotuikiRows
    ensures { Left (crossed of_rows (route_outcome limit n count fars.now costs.now i out.old)) result out.new }
{
    routes::route(n, count, fars, costs, i, out).into()
}

// Two tables compared by their trees.
#[unsafe(no_mangle)]
pub extern "C" fn kemotuiki_compare(n: usize, first: &[u32], second: &[u32]) -> KemotuikiComparison
    ensures { result ≡ of_comparison (comparison limit n first.now second.now) }
{
    compare::compare(n, first, second).into()
}

// The links that a team shares.
#[unsafe(no_mangle)]
pub extern "C" fn kemotuiki_consensus(
    n: usize,
    number: usize,
    tables: &[u32],
    fars: &mut [u64],
    costs: &mut [u32],
) -> KemotuikiRows
    ensures { LeftRows (crossed_rows of_shared (consensus_outcome limit n number tables.now fars.old costs.old)) result
        fars.new costs.new }
{
    consensus::consensus(n, number, tables, fars, costs).into()
}

// The replay of a trace: from the exact reading, one byte for each event, the number of the image that leaves.
#[unsafe(no_mangle)]
pub extern "C" fn kemotuiki_replay(
    n: usize,
    t: &[u32],
    events: &[u8],
    fars: &mut [u64],
    costs: &mut [u32],
) -> KemotuikiReplay
    ensures { LeftRows (crossed_rows of_replayed (replay_outcome limit n t.now events.now fars.old
        costs.old)) result fars.new costs.new }
{
    leaving::replay(n, t, events, fars, costs).into()
}

// The term report over stored cost tables: its figures, and in front of three slices the far sides seen, each with its number of trees and the
// sum of its doubled costs.
#[unsafe(no_mangle)]
pub extern "C" fn kemotuiki_report(
    bytes: &[u8],
    fars: &mut [u64],
    trees: &mut [u32],
    sums: &mut [u64],
) -> KemotuikiReport
    ensures { LeftReport (crossed_report of_report (report_outcome limit bytes.now fars.old trees.old
        sums.old)) result fars.new trees.new sums.new }
{
    report::report(bytes, fars, trees, sums).into()
}

// A cost table stored. Here and below the form is 0 for the old one and any other number for the new one.
#[unsafe(no_mangle)]
pub extern "C" fn kemotuiki_write_costs(
    form: usize,
    n: usize,
    t: &[u32],
    out: &mut [u8],
) -> KemotuikiBytes
    ensures { Left (crossed of_bytes (costs-writing.write_outcome (cost_form (edition_by form)) n t.now out.old)) result
        out.new }
{
    cost_writer::write_costs(Edition::from(form), n, t, out).into()
}

// A stored cost table read.
#[unsafe(no_mangle)]
pub extern "C" fn kemotuiki_read_costs(
    bytes: &[u8],
    position: usize,
    out: &mut [u32],
) -> KemotuikiCosts
    ensures { Left (crossed of_costs (costs-reading.read_either bytes.now position out.old)) result out.new }
{
    stored_costs::read_costs(bytes, position, out).into()
}

// A link table stored.
#[unsafe(no_mangle)]
pub extern "C" fn kemotuiki_write_links(
    form: usize,
    n: usize,
    count: usize,
    fars: &[u64],
    costs: &[u32],
    out: &mut [u8],
) -> KemotuikiBytes
    ensures { Left (crossed of_bytes (links-writing.write_outcome (link_form (edition_by form)) n count fars.now costs.now
        out.old)) result out.new }
{
    link_writer::write_links(Edition::from(form), n, count, fars, costs, out).into()
}

// A stored link table read.
#[unsafe(no_mangle)]
pub extern "C" fn kemotuiki_read_links(
    bytes: &[u8],
    position: usize,
    fars: &mut [u64],
    costs: &mut [u32],
) -> KemotuikiLinks
    ensures { LeftRows (crossed_rows of_links
        (links-reading.read_either bytes.now position fars.old costs.old)) result fars.new
        costs.new }
{
    stored_links::read_links(bytes, position, fars, costs).into()
}

// Link tables stored one after another.
#[unsafe(no_mangle)]
pub extern "C" fn kemotuiki_write_batch(
    form: usize,
    ns: &[u32],
    counts: &[u32],
    fars: &[u64],
    costs: &[u32],
    out: &mut [u8],
) -> KemotuikiBytes
    ensures { Left (crossed of_batched (batch_outcome (link_form (edition_by form)) ns.now counts.now fars.now
        costs.now out.old)) result out.new }
{
    batch::write_batch(Edition::from(form), ns, counts, fars, costs, out).into()
}

// Which of two stored link tables includes the other. A part of a buffer cannot cross, but its number and its used bytes say it.
#[unsafe(no_mangle)]
pub extern "C" fn kemotuiki_choice(first: &[u8], second: &[u8]) -> KemotuikiChoice
    ensures { result ≡ of_chosen (choice_either first.now second.now) }
{
    choice::choice(first, second).into()
}

// A stored cost table in the form that is asked for.
#[unsafe(no_mangle)]
pub extern "C" fn kemotuiki_convert_costs(
    form: usize,
    bytes: &[u8],
    out: &mut [u8],
) -> KemotuikiBytes
    ensures { Left (crossed of_bytes (costs_converted (edition_by form) bytes.now out.old)) result out.new }
{
    conversion::convert_costs(Edition::from(form), bytes, out).into()
}

// A stored link table in the form that is asked for.
#[unsafe(no_mangle)]
pub extern "C" fn kemotuiki_convert_links(
    form: usize,
    bytes: &[u8],
    out: &mut [u8],
) -> KemotuikiBytes
    ensures { Left (crossed of_bytes (links_converted (edition_by form) bytes.now out.old)) result out.new }
{
    conversion::convert_links(Edition::from(form), bytes, out).into()
}

// A link table as Newick text.
#[unsafe(no_mangle)]
pub extern "C" fn kemotuiki_write_newick(
    n: usize,
    count: usize,
    fars: &[u64],
    costs: &[u32],
    out: &mut [u8],
) -> KemotuikiBytes
    ensures { Left (crossed of_bytes (newick-writing.write_outcome n count fars.now costs.now out.old)) result
        out.new }
{
    newick_writer::write_newick(n, count, fars, costs, out).into()
}

// Newick text read as a link table.
#[unsafe(no_mangle)]
pub extern "C" fn kemotuiki_read_newick(
    text: &[u8],
    fars: &mut [u64],
    costs: &mut [u32],
) -> KemotuikiTree
    ensures { LeftRows (crossed_rows of_tree (newick-reading.read_outcome text.now fars.old costs.old)) result
        fars.new costs.new }
{
    newick_reader::read_newick(text, fars, costs).into()
}

// What an answer with this head says, as text with a zero byte behind it.
#[unsafe(no_mangle)]
pub extern "C" fn kemotuiki_refusal_text(
    number: usize,
    table: usize,
    a: usize,
    b: usize,
    c: usize,
    d: usize,
    out: &mut [u8],
) -> KemotuikiBytes
    ensures { Left (crossed of_bytes (refusal_text_outcome number table a b c d out.old)) result out.new }
{
    refusal_text::refusal_text(number, table, a, b, c, d, out).into()
}
