// The links that the trees of a team share. It rests on the promise of the tree part alone: each table is read exactly, and only what
// that call promises is used. The trees are met one after another, and nothing lent is written before the last table is accepted.
#![tactic(auto)]

ghost use Rattle.std.specs.Prelude.{◌≡◌, ◌<◌, ◌≤◌, ◌*◌, ◌+◌, ◌-◌, length};
ghost use Rattle.theory.specs.Outcomes.{LeftRows};
ghost use Rattle.theory.specs.Tables.{limit};
ghost use Rattle.consensus.specs.Call.{consensus_outcome, joined_check, leaving, number_check, team_answer, team_check};
ghost use Rattle.consensus.specs.Taking.{Shares, Taken, TreeRead};
ghost use Rattle.consensus.specs.Team.{Joined, shared_links, table_at, tables_in};

use ground::{Refusal, TableRefusal};

// Reads table k of those joined exactly, in the part of the slice where it stands. 128 places are more than any tree has rows, so
// refusal 3 is never given.
fn read_table(
    n: usize,
    number: usize,
    tables: &[u32],
    k: usize,
    fars: &mut [u64],
    costs: &mut [u32],
) -> Result<usize, Refusal>
    requires { Joined n number tables.now × (k < number) × (length fars.old ≡ 128) × (length costs.old ≡ 128) }
    ensures { TreeRead limit n (table_at n tables.now k) result fars.new costs.new }
{
    let size = n * n;
    let start = k * size;
    let end = start + size;
    graft::exact(n, &tables[start..end], fars, costs)
}

// The first table, whose tree is held as it is.
fn take_first(
    n: usize,
    number: usize,
    tables: &[u32],
    fars: &mut [u64],
    costs: &mut [u32],
) -> Result<usize, TableRefusal>
    requires { Joined n number tables.now × (length fars.old ≡ 128) × (length costs.old ≡ 128) }
    ensures { Taken limit n number tables.now 1 result fars.new costs.new }
{
    match read_table(n, number, tables, 0, fars, costs) {
        Ok(count) => Ok(count),
        Err(r) => Err(r.in_table(1)),
    }
}

// The next table, number k + 1, whose tree is met with the rows held.
fn take_next(
    n: usize,
    number: usize,
    tables: &[u32],
    k: usize,
    count: usize,
    fars: &mut [u64],
    costs: &mut [u32],
) -> Result<usize, TableRefusal>
    requires { Joined n number tables.now × (1 ≤ k) × (k < number) × Shares limit n tables.now k fars.old costs.old count }
    ensures { Taken limit n number tables.now (k + 1) result fars.new costs.new }
{
    let mut f = [0u64; 128];
    let mut v = [0u32; 128];
    match read_table(n, number, tables, k, &mut f, &mut v) {
        Ok(others) => Ok(shared_rows::meet(count, fars, costs, &f[..others], &v[..others])),
        Err(r) => Err(r.in_table(k + 1)),
    }
}

// The tables behind the first, one after another.
fn take_others(
    n: usize,
    number: usize,
    tables: &[u32],
    first: usize,
    fars: &mut [u64],
    costs: &mut [u32],
) -> Result<usize, TableRefusal>
    requires { Joined n number tables.now × Shares limit n tables.now 1 fars.old costs.old first }
    ensures { Taken limit n number tables.now number result fars.new costs.new }
{
    let mut count = first;
    for k in 1..number {
        count = take_next(n, number, tables, k, count, fars, costs)?;
    }
    Ok(count)
}

// All tables.
fn take_all(
    n: usize,
    number: usize,
    tables: &[u32],
    fars: &mut [u64],
    costs: &mut [u32],
) -> Result<usize, TableRefusal>
    requires { Joined n number tables.now × (length fars.old ≡ 128) × (length costs.old ≡ 128) }
    ensures { Taken limit n number tables.now number result fars.new costs.new }
{
    let first = take_first(n, number, tables, fars, costs)?;
    take_others(n, number, tables, first, fars, costs)
}

// The answer once the call's own checks have passed: the first table that is refused, or the shared rows, written at last.
fn write_shared(
    n: usize,
    number: usize,
    tables: &[u32],
    fars: &mut [u64],
    costs: &mut [u32],
) -> Result<usize, TableRefusal>
    requires { Joined n number tables.now × (2 * n - 3 ≤ length fars.old) × (2 * n - 3 ≤ length costs.old) }
    ensures { LeftRows (leaving (team_answer limit n number tables.now) (shared_links limit n (tables_in n number tables.now))
        fars.old costs.old) result fars.new costs.new }
{
    let mut f = [0u64; 128];
    let mut v = [0u32; 128];
    let count = take_all(n, number, tables, &mut f, &mut v)?;
    tree::write_rows(&f, &v, count, fars, costs);
    Ok(count)
}

// Refusal 16.
fn check_number(number: usize) -> Result<(), Refusal>
    ensures { result ≡ number_check number }
{
    ground::refuse_if(ground::is_outside(1, 16, number), 16, 0, 0)
}

// Refusal 2.
fn check_joined(n: usize, number: usize, tables: &[u32]) -> Result<(), Refusal>
    requires { (n ≤ 64) × (number ≤ 16) }
    ensures { result ≡ joined_check n number tables.now }
{
    ground::refuse_if(tables.len() != number * (n * n), 2, 0, 0)
}

// Refusals 1, 16, 2, 3, which are no table's.
#[tactic(auto, unfolding(crate::specs::Call::team_check))]
fn check_team(n: usize, number: usize, tables: &[u32], f: usize, v: usize) -> Result<(), Refusal>
    ensures { result ≡ team_check n number tables.now f v }
{
    theory::check_images(n)?;
    check_number(number)?;
    check_joined(n, number, tables)?;
    tree::check_room(n, f, v)
}

// The links that the trees of so many cost tables over n images share, each with the smallest of its doubled costs: how
// many they are, or the first refusal with the table's number, 0 for what is no table's.
pub fn consensus(
    n: usize,
    number: usize,
    tables: &[u32],
    fars: &mut [u64],
    costs: &mut [u32],
) -> Result<usize, TableRefusal>
    ensures { LeftRows (consensus_outcome limit n number tables.now fars.old costs.old) result
        fars.new costs.new }
{
    check_team(n, number, tables, fars.len(), costs.len()).map_err(|r| r.in_table(0))?;
    write_shared(n, number, tables, fars, costs)
}
