// The checks of a cost table that is to be written under the limit of a form. Images are counted from 0.
#![tactic(auto)]

ghost use Rattle.std.specs.Prelude.{◌≡◌, ◌+◌, ◌-◌, ◌<◌, ◌≤◌};
ghost use Rattle.ground.specs.Lowest.{check_all};
ghost use Rattle.ground.specs.Refusals.{◌then◌};
ghost use Rattle.theory.specs.Tables.{cost, limit};
ghost use Rattle.tables.specs.Entries.{costs_in};
ghost use Rattle.cost_limits.specs.Checks.{fit_check, large_check, table_checks};

use ground::Refusal;
use tables::Costs;

// Refusal 17 of the entry of i and j.
fn check_large(most: u32, t: &Costs<'_>, i: usize, j: usize) -> Result<(), Refusal>
    requires { (i < t.now.n) × (j < t.now.n) }
    ensures { result ≡ large_check most (costs_in t.now) i j }
{
    ground::refuse_if(most < t.entry(i, j), 17, i + 1, j + 1)
}

// Refusal 17 in row i, right of the diagonal.
#[tactic(auto, using(ground::specs::Laws::Lowest::in_turn))]
fn check_fit_row(most: u32, t: &Costs<'_>, i: usize) -> Result<(), Refusal>
    requires { i < t.now.n }
    ensures { result ≡ check_all (large_check most (costs_in t.now) i) (i + 1) (t.now.n - (i + 1)) }
{
    for j in i + 1..t.n {
        check_large(most, t, i, j)?;
    }
    Ok(())
}

// Refusal 17.
#[tactic(auto, using(ground::specs::Laws::Lowest::in_turn))]
fn check_fit(most: u32, t: &Costs<'_>) -> Result<(), Refusal>
    ensures { result ≡ fit_check most (costs_in t.now) t.now.n }
{
    for i in 0..t.n {
        check_fit_row(most, t, i)?;
    }
    Ok(())
}

// Refusals 1, 2, 4, 5, 6 and 20 under a limit.
fn check_table(most: u32, n: usize, t: &[u32]) -> Result<(), Refusal>
    ensures { result ≡ table_checks most n t.now }
{
    tables::check_size(n, t)?;
    tables::check_costs(most, n, t)
}

// Refusals 1, 2, 4, 5, 6, 20 and 17, one after the other.
#[tactic(auto, using(crate::proofs::Passed::passed_table))]
fn check_again(most: u32, n: usize, t: &[u32]) -> Result<(), Refusal>
    ensures { result ≡ (table_checks limit n t.now then fit_check most (cost t.now n) n) }
{
    check_table(theory::LIMIT, n, t)?;
    check_fit(most, &Costs { n, entries: t })
}

// The same, the form's own limit first: a table that passes under it passes under that of cost tables, so that no entry is looked at again.
#[tactic(auto, using(crate::specs::Laws::Fitting::passed_both))]
pub fn check_costs(most: u32, n: usize, t: &[u32]) -> Result<(), Refusal>
    requires { most ≤ limit }
    ensures { result ≡ (table_checks limit n t.now then fit_check most (cost t.now n) n) }
{
    check_table(most, n, t).or_else(|_| check_again(most, n, t))
}
