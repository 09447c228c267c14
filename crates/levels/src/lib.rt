// Level clusters: a cost table read as groups of images, each with its height. Images are counted from 0.
#![tactic(auto)]

ghost use Rattle.std.specs.Prelude.{◌≡◌, suc, ◌+◌, ◌-◌, ◌^◌, ◌<◌, ◌≤◌, eqb, leb, length};
ghost use Rattle.ground.specs.Counts.{one_if};
ghost use Rattle.ground.specs.Least.{lower_if};
ghost use Rattle.ground.specs.Sums.{when};
ghost use Rattle.theory.specs.Tables.{limit};
ghost use Rattle.tables.specs.Entries.{costs_in};
ghost use Rattle.leveling.specs.ThreePoint.{ThreePoint};
ghost use Rattle.levels.specs.Balls.{ball, levels_at};
ghost use Rattle.levels.specs.Outcome.{levels_checks, levels_outcome, LeftLevels};
ghost use Rattle.levels.specs.Next.{next_height, after_height};
ghost use Rattle.levels.specs.Putting.{PutLevels, WroteLevels};

use ground::Refusal;
use tables::Costs;

// Above every entry: the start of every least value.
const CAP: u32 = theory::LIMIT + 1;

// The images up to k whose entry with image k is at most some height, by their member sum; and the next height: the least entry of k with
// an image before it that is higher.
#[derive(Clone, Copy)]
struct Level {
    members: u64,
    next: u32,
}

// Image j more: it is a member where its entry with image k is at most h, and else its entry may be the next height.
fn turn_level(t: &Costs<'_>, k: usize, h: u32, j: usize, level: Level) -> Level
    requires { (k < t.now.n) × (j < t.now.n) × (level.members + 2 ^ j < 2 ^ 64) }
    ensures { (result.members ≡ level.members + when (leb (costs_in t.now k j) h) (2 ^ j))
        × (result.next ≡ lower_if (eqb (one_if (leb (suc h) (costs_in t.now k j))) 1) (costs_in t.now k) j level.next) }
{
    let x = t.entry(k, j);
    if x <= h {
        return Level {
            members: level.members + ground::bit_alone(j),
            next: level.next,
        };
    }
    Level {
        members: level.members,
        next: x.min(level.next),
    }
}

// The images up to k at most h away from k, and the next height.
#[tactic(auto, using(crate::proofs::Laws::Next::level_turns))]
fn level_at(t: &Costs<'_>, k: usize, h: u32) -> Level
    requires { k < t.now.n }
    ensures { (result.members ≡ ball (costs_in t.now) (suc k) k h) × (result.next ≡ next_height limit (costs_in t.now) k (suc h)) }
{
    let mut level = Level {
        members: 0,
        next: CAP,
    };
    for j in 0..k + 1 {
        level = turn_level(t, k, h, j, level);
    }
    level
}

// The least entry of image k with an image after it.
#[tactic(auto, using(crate::proofs::Laws::Next::after_turns))]
fn after(t: &Costs<'_>, k: usize) -> u32
    requires { k < t.now.n }
    ensures { result ≡ after_height limit (costs_in t.now) t.now.n k }
{
    let mut m = CAP;
    for j in k + 1..t.n {
        m = t.entry(k, j).min(m);
    }
    m
}

// The groups whose last image is k, stored from the place `at` on; the place behind them. Their heights are the entries of k with images
// before it that are below all those with images after it, taken from the least on, which is the next one from 0.
#[tactic(auto, using(crate::proofs::Laws::Storing::put_turns))]
fn put_levels(t: &Costs<'_>, k: usize, at: usize, members: &mut [u64], heights: &mut [u32]) -> usize
    requires { (k < t.now.n) × (at + length (levels_at (costs_in t.now) t.now.n k (suc limit)) ≤ length members.old)
        × (at + length (levels_at (costs_in t.now) t.now.n k (suc limit)) ≤ length heights.old) }
    ensures { PutLevels limit (costs_in t.now) t.now.n k at members.old heights.old result members.new
        heights.new }
{
    let cap = after(t, k);
    let mut place = at;
    let mut h = level_at(t, k, 0).next;
    // A `while`: the table says which height is the next one.
    while h < cap {
        let level = level_at(t, k, h);
        members[place] = level.members;
        heights[place] = h;
        place += 1;
        h = level.next;
    }
    place
}

// All groups, by their last image: they ascend by themselves, and there are at most n - 1.
#[tactic(auto, using(crate::proofs::Laws::Written::write_turns))]
fn write_levels(t: &Costs<'_>, members: &mut [u64], heights: &mut [u32]) -> usize
    requires { ThreePoint (costs_in t.now) t.now.n × (t.now.n - 1 ≤ length members.old) × (t.now.n - 1 ≤ length heights.old) }
    ensures { WroteLevels (costs_in t.now) t.now.n result members.old heights.old members.new
        heights.new }
{
    let mut place = 0;
    for k in 0..t.n {
        place = put_levels(t, k, place, members, heights);
    }
    place
}

// Refusals 1, 2, 3, 4, 5, 6, 20, 21.
#[tactic(auto, using(crate::proofs::Laws::Asked::table_of), unfolding(crate::specs::Outcome::levels_checks))]
fn check_all(n: usize, t: &[u32], g: usize, v: usize) -> Result<(), Refusal>
    ensures { result ≡ levels_checks limit n t.now g v }
{
    tables::check_size(n, t)?;
    ground::refuse_if(g.min(v) < n - 1, 3, 0, 0)?;
    tables::check_costs(theory::LIMIT, n, t)?;
    leveling::check_levels(&Costs { n, entries: t })
}

// The groups of a table with levels, ascending by member sum, each with its height, n - 1 places at most of each slice; or the refusal, 21
// with the first three images that show that there are no levels. Everything is checked before the first store. What was left is worth:
// specs/Reading.antt; what the exact tree of the same table looks like: specs/Links.antt.
#[tactic(auto, using(crate::proofs::Laws::Asked::passed_asked, crate::proofs::Laws::Asked::ways_out))]
pub fn levels(
    n: usize,
    t: &[u32],
    members: &mut [u64],
    heights: &mut [u32],
) -> Result<usize, Refusal>
    ensures { LeftLevels (levels_outcome limit n t.now members.old heights.old) result members.new
        heights.new }
{
    check_all(n, t, members.len(), heights.len())?;
    Ok(write_levels(&Costs { n, entries: t }, members, heights))
}
