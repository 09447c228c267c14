// Two cost tables compared by their trees. It rests on the promise of the tree part alone: each table is read exactly, and only what
// that call promises is used.
#![tactic(auto)]

ghost use Rattle.std.specs.Prelude.{◌≡◌, ◌≤◌, ◌^◌, length};
ghost use Rattle.ground.specs.Ascending.{Between};
ghost use Rattle.theory.specs.Tables.{limit};
ghost use Rattle.tree.specs.Exact.{SidesRead};
ghost use Rattle.compare.specs.Call.{against_second, both_tables, comparison};

use counts::Difference;
use ground::{Refusal, TableRefusal};

// Reads t exactly. The tree's far sides stand at the front of fars; its costs are not wanted. 128 places are more than any tree has
// rows, so refusal 3 is never given.
fn read(n: usize, t: &[u32], fars: &mut [u64]) -> Result<usize, Refusal>
    requires { (3 ≤ n) × (n ≤ 64) × (length fars.old ≡ 128) }
    ensures { SidesRead limit n t.now result fars.new }
{
    let mut costs = [0u32; 128];
    graft::exact(n, t, fars, &mut costs)
}

// The far sides of the first tree against the second table.
fn against_second(n: usize, first: &[u64], second: &[u32]) -> Result<Difference, TableRefusal>
    requires { (3 ≤ n) × (n ≤ 64) × Between 1 first.now (2 ^ n) × (length first.now ≤ 128) }
    ensures { result ≡ against_second limit n first.now second.now }
{
    let mut fars = [0u64; 128];
    let count = read(n, second, &mut fars).map_err(|r| r.in_table(2))?;
    Ok(counts::differ(n, first, &fars[..count]))
}

// The first table, and where it is accepted its tree against the second.
fn both_tables(n: usize, first: &[u32], second: &[u32]) -> Result<Difference, TableRefusal>
    requires { (3 ≤ n) × (n ≤ 64) }
    ensures { result ≡ both_tables limit n first.now second.now }
{
    let mut fars = [0u64; 128];
    let count = read(n, first, &mut fars).map_err(|r| r.in_table(1))?;
    against_second(n, &fars[..count], second)
}

// The two tables compared, or the first refusal, with the table's number, 0 with 1: 1, then 2, 4, 5, 6, 20, 7 for the first table and then for the second.
pub fn compare(n: usize, first: &[u32], second: &[u32]) -> Result<Difference, TableRefusal>
    ensures { result ≡ comparison limit n first.now second.now }
{
    theory::check_images(n).map_err(|r| r.in_table(0))?;
    both_tables(n, first, second)
}
