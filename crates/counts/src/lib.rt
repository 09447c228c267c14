// How far two lists of far sides differ: inner ones of each, common ones, and those in exactly one. Both lists ascend strictly.
#![tactic(auto)]

ghost use Rattle.std.specs.Prelude.{◌≡◌, ◌≤◌, ◌^◌, length};
ghost use Rattle.ground.specs.Ascending.{Between};
ghost use Rattle.theory.specs.Comparison.{common, inners};
ghost use Rattle.counts.specs.Differ.{differ, over_of};
ghost use Rattle.counts.specs.Merge.{one_common};

// What is counted: inner far sides of the first, of the second, common ones, and those in exactly one list; over is what that
// count is set over.
#[derive(Clone, Copy)]
pub struct Difference {
    pub first: usize,
    pub second: usize,
    pub common: usize,
    pub count: usize,
    pub over: usize,
}

// How many far sides are inner.
#[tactic(auto, using(crate::specs::Laws::Counted::counted))]
pub fn inner_rows(n: usize, sides: &[u64]) -> usize
    ensures { result ≡ length (inners n sides.now) }
{
    sides.iter().filter(|s| theory::is_inner(n, **s)).count()
}

// 1 where x and y are the same inner far side, else 0.
#[tactic(auto, unfolding(crate::specs::Merge::one_common))]
fn one_common(n: usize, x: u64, y: u64) -> usize
    ensures { result ≡ one_common n x y }
{
    usize::from(x == y && theory::is_inner(n, x))
}

// How many inner far sides are in both lists. One merge: of the two far sides in front the lesser is left behind, both where they
// are the same.
pub fn common_rows(n: usize, first: &[u64], second: &[u64]) -> usize
    requires { Between 1 first.now (2 ^ n) × Between 1 second.now (2 ^ n) }
    ensures { result ≡ length (common (inners n first.now) (inners n second.now)) }
{
    let mut count = 0;
    let mut i = 0;
    let mut j = 0;
    // A `while`: each list goes on by itself.
    while i < first.len() && j < second.len() {
        let x = first[i];
        let y = second[j];
        count += one_common(n, x, y);
        i += ground::advance(x, y);
        j += ground::advance(y, x);
    }
    count
}

// What the count is set over: the inner far sides of both lists, and 1 where there are none.
fn over_of(inner: usize) -> usize
    ensures { result ≡ over_of inner }
{
    inner.max(1)
}

// The whole difference of two lists; those in exactly one are counted from the three numbers before.
pub fn differ(n: usize, first: &[u64], second: &[u64]) -> Difference
    requires { Between 1 first.now (2 ^ n) × Between 1 second.now (2 ^ n) × (length first.now ≤ 128)
        × (length second.now ≤ 128) }
    ensures { result ≡ differ n first.now second.now }
{
    let a = inner_rows(n, first);
    let b = inner_rows(n, second);
    let both = common_rows(n, first, second);
    let inner = a + b;
    Difference {
        first: a,
        second: b,
        common: both,
        count: inner - 2 * both,
        over: over_of(inner),
    }
}
