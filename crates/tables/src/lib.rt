// Cost tables: an entry, and the checks that a table passes or is refused by. Images are counted from 0.
#![tactic(auto)]

pub mod costs;

ghost use Rattle.std.specs.Prelude.{◌≡◌, ◌+◌, ◌-◌, ◌<◌, ◌≤◌, ◌*◌};
ghost use Rattle.ground.specs.Lowest.{check_all};
ghost use Rattle.theory.specs.Tables.{limit, cost, CostTable};
ghost use Rattle.ground.specs.Refusals.{◌then◌};
ghost use Rattle.tables.specs.Checks.{
  size_check,
  entry_check,
  entries_check,
  zero_check,
  diagonal_check,
  pair_check,
  symmetry_check,
  off_diagonal_check,
  costs_check,
};
ghost use Rattle.tables.specs.Entries.{costs_in};
ghost use Rattle.tables.specs.Formed.{Sized};
ghost use Rattle.tables.specs.Pairs.{pairs_check};

pub use costs::Costs;
use ground::Refusal;

// The entry of images i and j in a table of the right size.
fn at(t: &[u32], n: usize, i: usize, j: usize) -> u32
    requires { Sized n t.now × (i < n) × (j < n) }
    ensures { result ≡ cost t.now n i j }
{
    t[i * n + j]
}

impl<'a> Costs<'a> {
    // The entry of images i and j.
    pub fn entry(&self, i: usize, j: usize) -> u32
        requires { (i < self.now.n) × (j < self.now.n) }
        ensures { (result ≡ costs_in self.now i j) × (result ≤ limit) }
    {
        at(self.entries, self.n, i, j)
    }
}

// Refusals 1 and 2. Nothing is computed from n before it is known to be small.
pub fn check_size(n: usize, t: &[u32]) -> Result<(), Refusal>
    ensures { result ≡ size_check n t.now }
{
    theory::check_images(n)?;
    ground::refuse_if(t.len() != n * n, 2, 0, 0)
}

fn check_entry(most: u32, n: usize, t: &[u32], i: usize, j: usize) -> Result<(), Refusal>
    requires { Sized n t.now × (i < n) × (j < n) }
    ensures { result ≡ entry_check most (cost t.now n) i j }
{
    ground::refuse_if(most < at(t, n, i, j), 4, i + 1, j + 1)
}

// Refusal 4 in row i.
#[tactic(auto, using(ground::specs::Laws::Lowest::in_turn))]
fn check_row(most: u32, n: usize, t: &[u32], i: usize) -> Result<(), Refusal>
    requires { Sized n t.now × (i < n) }
    ensures { result ≡ check_all (entry_check most (cost t.now n) i) 0 n }
{
    for j in 0..n {
        check_entry(most, n, t, i, j)?;
    }
    Ok(())
}

// Refusal 4 in the whole table.
#[tactic(auto, using(ground::specs::Laws::Lowest::in_turn))]
fn check_entries(most: u32, n: usize, t: &[u32]) -> Result<(), Refusal>
    requires { Sized n t.now }
    ensures { result ≡ entries_check most (cost t.now n) n }
{
    for i in 0..n {
        check_row(most, n, t, i)?;
    }
    Ok(())
}

fn check_zero(n: usize, t: &[u32], i: usize) -> Result<(), Refusal>
    requires { Sized n t.now × (i < n) }
    ensures { result ≡ zero_check (cost t.now n) i }
{
    ground::refuse_if(0 < at(t, n, i, i), 5, i + 1, 0)
}

// Refusal 5.
#[tactic(auto, using(ground::specs::Laws::Lowest::in_turn))]
fn check_diagonal(n: usize, t: &[u32]) -> Result<(), Refusal>
    requires { Sized n t.now }
    ensures { result ≡ diagonal_check (cost t.now n) n }
{
    for i in 0..n {
        check_zero(n, t, i)?;
    }
    Ok(())
}

// Refusal 6 of images i and j, and 20 where they cost less than the least.
fn check_pair(least: u32, n: usize, t: &[u32], i: usize, j: usize) -> Result<(), Refusal>
    requires { Sized n t.now × (i < n) × (j < n) }
    ensures { result ≡ pair_check least (cost t.now n) i j }
{
    let here = at(t, n, i, j);
    ground::refuse_if(here != at(t, n, j, i), 6, i + 1, j + 1)?;
    ground::refuse_if(here < least, 20, i + 1, j + 1)
}

// The same in row i, right of the diagonal.
#[tactic(auto, using(ground::specs::Laws::Lowest::in_turn))]
fn check_pair_row(least: u32, n: usize, t: &[u32], i: usize) -> Result<(), Refusal>
    requires { Sized n t.now × (i < n) }
    ensures { result ≡ check_all (pair_check least (cost t.now n) i) (i + 1) (n - (i + 1)) }
{
    for j in i + 1..n {
        check_pair(least, n, t, i, j)?;
    }
    Ok(())
}

// The same in the whole table.
#[tactic(auto, using(ground::specs::Laws::Lowest::in_turn))]
fn check_pairs(least: u32, n: usize, t: &[u32]) -> Result<(), Refusal>
    requires { Sized n t.now }
    ensures { result ≡ pairs_check (pair_check least (cost t.now n)) n }
{
    for i in 0..n {
        check_pair_row(least, n, t, i)?;
    }
    Ok(())
}

// Refusals 6 and 20. One pass finds the first pair that has either; only where there is one, a second pass asks for 6 alone, which comes first.
fn check_mirrored(n: usize, t: &[u32]) -> Result<(), Refusal>
    requires { Sized n t.now }
    ensures { result ≡ (symmetry_check (cost t.now n) n then off_diagonal_check (cost t.now n) n) }
{
    let either = check_pairs(1, n, t);
    if either.is_err() {
        check_pairs(0, n, t)?;
    }
    either
}

// Refusals 4, 5, 6, 20 of a table of the right size.
pub fn check_costs(most: u32, n: usize, t: &[u32]) -> Result<(), Refusal>
    requires { Sized n t.now }
    ensures { result ≡ costs_check most (cost t.now n) n }
{
    check_entries(most, n, t)?;
    check_diagonal(n, t)?;
    check_mirrored(n, t)
}
