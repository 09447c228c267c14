// Link tables written one after another in one form, each into the rest of the lent buffer. Tables are numbered from 1; i counts those already passed.
#![tactic(auto)]

ghost use Rattle.std.specs.Prelude.{Ok, ◌≡◌, ◌≤◌, drop, length};
ghost use Rattle.ground.specs.Outcomes.{Left};
ghost use Rattle.link_forms.specs.Form.{link_form};
ghost use Rattle.joined_tables.specs.Tables.{left_over_checks, tables};
ghost use Rattle.batch.specs.Batch.{batch_answer, batch_from, batch_outcome, numbered};

use bits::Edition;
use ground::TableRefusal;

// The answer once all i tables passed: nothing may be left over from place `rows` on.
fn check_end(
    i: usize,
    used: usize,
    rows: usize,
    fars: &[u64],
    costs: &[u32],
) -> Result<usize, TableRefusal>
    requires { (rows ≤ length fars.now) × (rows ≤ length costs.now) }
    ensures { result ≡ numbered i (left_over_checks (drop rows fars.now) (drop rows costs.now)) (Ok used) }
{
    joined_tables::check_left_over(&fars[rows..], &costs[rows..]).map_err(|r| r.in_table(i))?;
    Ok(used)
}

// The answer for two lists of one length: table by table, with the rows and the room that the tables before left.
fn check_tables(
    edition: Edition,
    ns: &[u32],
    counts: &[u32],
    fars: &[u64],
    costs: &[u32],
    room: usize,
) -> Result<usize, TableRefusal>
    requires { length ns.now ≡ length counts.now }
    ensures { result ≡ batch_from (link_form edition) 0 0 (tables ns.now counts.now) fars.now costs.now room }
{
    let mut used = 0;
    let mut rows = 0;
    for i in 0..ns.len() {
        let n = joined_tables::number_at(ns, i);
        let count = joined_tables::number_at(counts, i);
        let looked = joined_tables::check_from(edition, n, count, rows, fars, costs, room - used);
        looked.map_err(|r| r.in_table(i + 1))?;
        used += link_writer::links_used(edition, n, count);
        rows += count;
    }
    check_end(ns.len(), used, rows, fars, costs)
}

// The answer, and nothing written: 2 with table number 0 where the two lists differ in length.
fn check_batch(
    edition: Edition,
    ns: &[u32],
    counts: &[u32],
    fars: &[u64],
    costs: &[u32],
    room: usize,
) -> Result<usize, TableRefusal>
    ensures { result ≡ batch_answer (link_form edition) ns.now counts.now fars.now costs.now room }
{
    ground::refuse_if(ns.len() != counts.len(), 2, 0, 0).map_err(|r| r.in_table(0))?;
    check_tables(edition, ns, counts, fars, costs, room)
}

// Link tables over the images ns, with so many rows each, one after another at the front of the lent bytes, all in the form that is asked for;
// the answer is the bytes used, or the first refusal with the table's number. Everything is checked before the first byte is written.
pub fn write_batch(
    edition: Edition,
    ns: &[u32],
    counts: &[u32],
    fars: &[u64],
    costs: &[u32],
    out: &mut [u8],
) -> Result<usize, TableRefusal>
    ensures { Left (batch_outcome (link_form edition) ns.now counts.now fars.now costs.now
        out.old) result out.new }
{
    let used = check_batch(edition, ns, counts, fars, costs, out.len())?;
    joined_tables::put_tables(edition, ns, counts, fars, costs, out);
    Ok(used)
}
