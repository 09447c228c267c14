// Whether a cost table has levels, by the three-point condition. Images are counted from 0.
#![tactic(auto)]

ghost use Rattle.std.specs.Prelude.{true, ◌↔◌, ◌≡◌, ◌<◌};
ghost use Rattle.tables.specs.Entries.{costs_in};
ghost use Rattle.leveling.specs.Check.{levels_check};
ghost use Rattle.leveling.specs.Scan.{three_check, last_scan, second_scan};
ghost use Rattle.leveling.specs.Joins.{Nearest, joins, joins_at, nearer};
ghost use Rattle.leveling.specs.ThreePoint.{ThreePoint, fails, three};

use ground::Refusal;
use tables::Costs;

// Whether the images i, j, k fail the condition.
fn is_failing(t: &Costs<'_>, i: usize, j: usize, k: usize) -> bool
    requires { (i < t.now.n) × (j < t.now.n) × (k < t.now.n) }
    ensures { result ≡ fails (costs_in t.now) (three i j k) }
{
    wiring::is_once(t.entry(i, j), t.entry(i, k), t.entry(j, k))
}

// Refusal 21 for the images i, j, k.
fn check_three(t: &Costs<'_>, i: usize, j: usize, k: usize) -> Result<(), Refusal>
    requires { (i < t.now.n) × (j < t.now.n) × (k < t.now.n) }
    ensures { result ≡ three_check (costs_in t.now) i j k }
{
    if is_failing(t, i, j, k) {
        return Err(Refusal {
            number: 21,
            a: i + 1,
            b: j + 1,
            c: k + 1,
            d: 0,
        });
    }
    Ok(())
}

// Refusal 21 for the threes that begin with i, j. A repeat never fails, so the third image is a later one.
#[tactic(auto, using(crate::proofs::Laws::Scan::last_in_turn))]
fn scan_last(t: &Costs<'_>, i: usize, j: usize) -> Result<(), Refusal>
    requires { (i < t.now.n) × (j < t.now.n) }
    ensures { result ≡ last_scan (costs_in t.now) t.now.n i j }
{
    for k in j + 1..t.n {
        check_three(t, i, j, k)?;
    }
    Ok(())
}

// Refusal 21 for the threes that begin with i.
#[tactic(auto, using(crate::proofs::Laws::Scan::second_in_turn))]
fn scan_second(t: &Costs<'_>, i: usize) -> Result<(), Refusal>
    requires { i < t.now.n }
    ensures { result ≡ second_scan (costs_in t.now) t.now.n i }
{
    for j in i + 1..t.n {
        scan_last(t, i, j)?;
    }
    Ok(())
}

// Refusal 21 at the first of all threes i ≤ j ≤ k that fails. Those that begin with image 0 do not decide, as the fours do for refusal 7,
// so it looks at all without repeats, fewer than n³/6.
#[tactic(auto, using(ground::specs::Laws::Lowest::in_turn, crate::proofs::Laws::Scan::levels_scan))]
fn scan_first(t: &Costs<'_>) -> Result<(), Refusal>
    ensures { result ≡ levels_check (costs_in t.now) t.now.n }
{
    for i in 0..t.n {
        scan_second(t, i)?;
    }
    Ok(())
}

// The nearer of the images p and i to image j, p on a tie.
#[tactic(auto, unfolding(crate::specs::Joins::nearer))]
fn nearer(t: &Costs<'_>, j: usize, p: usize, i: usize) -> usize
    requires { (j < t.now.n) × (p < t.now.n) × (i < t.now.n) }
    ensures { result ≡ nearer (costs_in t.now) j p i }
{
    if t.entry(j, i) < t.entry(j, p) { i } else { p }
}

// An image before j to which j is nearest.
#[tactic(auto, using(crate::proofs::Laws::Joins::nearest_turns))]
fn nearest(t: &Costs<'_>, j: usize) -> usize
    requires { (0 < j) × (j < t.now.n) }
    ensures { Nearest (costs_in t.now) j j result }
{
    let mut p = 0;
    for i in 1..j {
        p = nearer(t, j, p, i);
    }
    p
}

// Whether image j is as far from i as p is, or as far as from p where this is more.
#[tactic(auto, unfolding(crate::specs::Joins::joins_at))]
fn joins_at(t: &Costs<'_>, j: usize, p: usize, i: usize) -> bool
    requires { (j < t.now.n) × (p < t.now.n) × (i < t.now.n) }
    ensures { result ≡ joins_at (costs_in t.now) j p i }
{
    t.entry(j, i) == t.entry(p, i).max(t.entry(j, p))
}

// The same from every image before j.
#[tactic(auto, using(crate::proofs::Laws::Joins::joins_turns))]
fn joins(t: &Costs<'_>, j: usize, p: usize) -> bool
    requires { (j < t.now.n) × (p < t.now.n) }
    ensures { result ≡ joins (costs_in t.now) j p }
{
    for i in 0..j {
        if !joins_at(t, j, p, i) {
            return false;
        }
    }
    true
}

// Whether the table has levels, image by image, some n² steps.
#[tactic(auto, using(crate::proofs::Laws::Joins::three_turns))]
fn has_levels(t: &Costs<'_>) -> bool
    ensures { (result ≡ true) ↔ ThreePoint (costs_in t.now) t.now.n }
{
    for j in 1..t.n {
        if !joins(t, j, nearest(t, j)) {
            return false;
        }
    }
    true
}

// Refusal 21 at the first of all threes that fails; it is looked for only where there is one.
#[tactic(auto, using(crate::proofs::Promises::levels_pass))]
pub fn check_levels(t: &Costs<'_>) -> Result<(), Refusal>
    ensures { result ≡ levels_check (costs_in t.now) t.now.n }
{
    if has_levels(t) {
        return Ok(());
    }
    scan_first(t)
}
