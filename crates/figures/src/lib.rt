// The figures of a term report, and how a tree more counts in them.
#![tactic(auto)]

ghost use Rattle.std.specs.Prelude.{◌≡◌, ◌-◌, ◌^◌, ◌≤◌, max, length, take};
ghost use Rattle.ground.specs.Ascending.{Between};
ghost use Rattle.theory.specs.Comparison.{common, inners};
ghost use Rattle.figures.specs.Figures.{no_figures};
ghost use Rattle.figures.specs.OneMore.{Fits, with_apart, with_tree};
ghost use Rattle.figures.specs.Pairing.{pair_count};

// The figures: n of the first table, the tables read, how many were accepted and how many got 7, the far sides seen, the pairs of an
// accepted table and the next accepted one with the sum and the largest of their Robinson-Foulds counts, and the bytes used.
#[derive(Clone, Copy, Default, PartialEq, Eq)]
pub struct Figures {
    pub images: usize,
    pub tables: usize,
    pub accepted: usize,
    pub apart: usize,
    pub sides: usize,
    pub pairs: usize,
    pub count_sum: usize,
    pub largest_count: usize,
    pub used: usize,
}

// Nothing but zeros.
pub fn no_figures() -> Figures
    ensures { result ≡ no_figures }
{
    Figures::default()
}

// How many inner far sides of the tree `next` are not among the first `sides` of those kept.
pub fn fresh(n: usize, kept: &[u64], sides: usize, next: &[u64]) -> usize
    requires { (sides ≤ length kept.now) × Between 1 (take sides kept.now) (2 ^ n) × Between 1 next.now (2 ^ n) }
    ensures { result ≡ length (inners n next.now) - length (common (inners n (take sides kept.now)) (inners n next.now)) }
{
    counts::inner_rows(n, next) - counts::common_rows(n, &kept[..sides], next)
}

// The Robinson-Foulds count of the tree `next` and the last one before it, of which there are so many; 0 where there is none.
pub fn count_pair(n: usize, before: usize, last: &[u64], next: &[u64]) -> usize
    requires { (3 ≤ n) × (n ≤ 64) × Between 1 last.now (2 ^ n) × Between 1 next.now (2 ^ n) × (length last.now ≤ 128) × (length next.now ≤ 128) }
    ensures { result ≡ pair_count n before last.now next.now }
{
    if before == 0 {
        return 0;
    }
    counts::differ(n, last, next).count
}

// The figures with an accepted table more, over n images and of so many bytes: `all` far sides are seen then, and `pair` is the count of its pair.
pub fn with_tree(figures: Figures, n: usize, more: usize, all: usize, pair: usize) -> Figures
    requires { Fits figures more pair }
    ensures { result ≡ with_tree figures n more all pair }
{
    Figures {
        images: n,
        tables: figures.tables + 1,
        accepted: figures.accepted + 1,
        sides: all,
        pairs: figures.accepted,
        count_sum: figures.count_sum + pair,
        largest_count: figures.largest_count.max(pair),
        used: figures.used + more,
        ..figures
    }
}

// The figures with a table more that gets 7.
pub fn with_apart(figures: Figures, n: usize, more: usize) -> Figures
    requires { Fits figures more 0 }
    ensures { result ≡ with_apart figures n more }
{
    Figures {
        images: n,
        tables: figures.tables + 1,
        apart: figures.apart + 1,
        used: figures.used + more,
        ..figures
    }
}
