// The tables of a batch: the checks of the next one, and their stored forms in one form, each written into the rest of the lent buffer.
#![tactic(auto)]

ghost use Rattle.std.specs.Prelude.{◌≡◌, ◌≤◌, ◌<◌, drop, get_or, length, take};
ghost use Rattle.ground.specs.Buffers.{front};
ghost use Rattle.link_forms.specs.Form.{link_bytes, link_form, link_used};
ghost use Rattle.joined_tables.specs.Tables.{left_over_checks, next_checks, run_out_checks, tables};
ghost use Rattle.joined_tables.specs.Bytes.{batch_bytes};
ghost use Rattle.joined_tables.specs.Fitting.{BatchFits, NextFits};

use bits::Edition;
use ground::Refusal;

// Refusal 2 where either slice has fewer rows left than the table counts.
fn check_run_out(count: usize, fars: &[u64], costs: &[u32]) -> Result<(), Refusal>
    ensures { result ≡ run_out_checks count fars.now costs.now }
{
    ground::refuse_if(fars.len() < count, 2, 0, 0)?;
    ground::refuse_if(costs.len() < count, 2, 0, 0)
}

// Refusal 2 where either slice has rows left over.
pub fn check_left_over(fars: &[u64], costs: &[u32]) -> Result<(), Refusal>
    ensures { result ≡ left_over_checks fars.now costs.now }
{
    ground::refuse_if(0 < fars.len(), 2, 0, 0)?;
    ground::refuse_if(0 < costs.len(), 2, 0, 0)
}

// Refusals 1, 10, 2, 12, 13, 17 and 3 of the table whose rows stand at the front of the rows left.
fn check_next(
    edition: Edition,
    n: usize,
    count: usize,
    fars: &[u64],
    costs: &[u32],
    room: usize,
) -> Result<(), Refusal>
    ensures { result ≡ next_checks (link_form edition) n count fars.now costs.now room }
{
    links::check_count(n, count)?;
    check_run_out(count, fars, costs)?;
    link_writer::check_links(edition, n, &fars[..count], &costs[..count], room)
}

// The same of the table whose rows begin at place `rows` of the joined slices.
pub fn check_from(
    edition: Edition,
    n: usize,
    count: usize,
    rows: usize,
    fars: &[u64],
    costs: &[u32],
    room: usize,
) -> Result<(), Refusal>
    requires { (rows ≤ length fars.now) × (rows ≤ length costs.now) }
    ensures { result ≡ next_checks (link_form edition) n count (drop rows fars.now) (drop rows costs.now) room }
{
    check_next(edition, n, count, &fars[rows..], &costs[rows..], room)
}

// The number at place i of a list of n or of row counts.
pub fn number_at(list: &[u32], i: usize) -> usize
    requires { i < length list.now }
    ensures { result ≡ get_or list.now i 0 }
{
    list[i] as usize
}

// The stored form of the table whose rows begin at place `rows`, at the front of the bytes; the answer is the bytes used. The writer gets the
// part of the joined slices that belongs to the table.
fn put_next(
    edition: Edition,
    n: usize,
    count: usize,
    rows: usize,
    fars: &[u64],
    costs: &[u32],
    out: &mut [u8],
) -> usize
    requires { NextFits (link_form edition) n count (drop rows fars.now) (drop rows costs.now) (length out.old) }
    ensures { (result ≡ link_used (link_form edition) n count) × (out.new ≡ front
        (link_bytes (link_form edition) n (take count (drop rows fars.now)) (take count (drop rows costs.now))) out.old) }
{
    let end = rows + count;
    link_writer::put_links(edition, n, &fars[rows..end], &costs[rows..end], out)
}

// The tables' stored forms, joined, at the front of the lent bytes: each is written into the rest that the tables before left.
pub fn put_tables(
    edition: Edition,
    ns: &[u32],
    counts: &[u32],
    fars: &[u64],
    costs: &[u32],
    out: &mut [u8],
)
    requires { (length ns.now ≡ length counts.now)
        × BatchFits (link_form edition) (tables ns.now counts.now) fars.now costs.now (length out.old) }
    ensures { out.new ≡ front (batch_bytes (link_form edition) (tables ns.now counts.now) fars.now
        costs.now) out.old }
{
    let mut used = 0;
    let mut rows = 0;
    for table in 0..ns.len() {
        let n = number_at(ns, table);
        let count = number_at(counts, table);
        used += put_next(edition, n, count, rows, fars, costs, &mut out[used..]);
        rows += count;
    }
}
