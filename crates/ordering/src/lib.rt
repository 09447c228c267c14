// The images of a cost table in the order around the tree, written from its end: each is the next to the left of the one before. Images are
// counted from 0.
#![tactic(auto)]

ghost use Rattle.std.specs.Prelude.{◌≡◌, map, suc, ◌+◌, ◌<◌, ◌≤◌, ◌^◌, ltb, length, set};
ghost use Rattle.std.specs.Int.Bits.{bit_or};
ghost use Rattle.ground.specs.Buffers.{front};
ghost use Rattle.theory.specs.Order.{better, order};
ghost use Rattle.tables.specs.Entries.{costs_in};
ghost use Rattle.ordering.specs.Next.{next_left, turn_next};

use tables::Costs;

// Whether a - b is below c - e, as signed numbers.
fn is_less(a: u32, b: u32, c: u32, e: u32) -> bool
    ensures { result ≡ ltb (a + e) (c + b) }
{
    ground::gap(a, b) < ground::gap(c, e)
}

// Whether w stands before b to the left of x: d(x,w) - d(first,w) is below d(x,b) - d(first,b), or b is first, that is none yet.
fn is_better(t: &Costs<'_>, f: usize, x: usize, w: usize, b: usize) -> bool
    requires { (f < t.now.n) × (x < t.now.n) × (w < t.now.n) × (b < t.now.n) }
    ensures { result ≡ better (costs_in t.now) f x w b }
{
    b == f || is_less(t.entry(x, w), t.entry(f, w), t.entry(x, b), t.entry(f, b))
}

// The better of w and b, and b where w is placed.
#[tactic(auto, unfolding(crate::specs::Next::turn_next))]
fn turn_next(t: &Costs<'_>, f: usize, x: usize, placed: u64, w: usize, b: usize) -> usize
    requires { (f < t.now.n) × (x < t.now.n) × (w < t.now.n) × (b < t.now.n) }
    ensures { result ≡ turn_next (costs_in t.now) f x placed w b }
{
    if ground::side(placed, w) == 0 && is_better(t, f, x, w, b) {
        w
    } else {
        b
    }
}

// The next image to the left of x: of those whose bit in placed is 0, the one with the least difference, the lowest number on a tie.
#[tactic(auto, using(ground::specs::Laws::Folds::fold_none, ground::specs::Laws::Folds::fold_more, ground::specs::Laws::Folds::fold_end, crate::specs::Laws::Next::turn_lt), unfolding(crate::specs::Next::next_left))]
fn next_left(t: &Costs<'_>, f: usize, x: usize, placed: u64) -> usize
    requires { (f < t.now.n) × (x < t.now.n) }
    ensures { result ≡ next_left (costs_in t.now) f x placed t.now.n }
{
    let mut b = f;
    for w in 0..t.n {
        b = turn_next(t, f, x, placed, w, b);
    }
    b
}

// The placed images and x.
fn mark(placed: u64, x: usize) -> u64
    requires { x < 64 }
    ensures { result ≡ bit_or placed (2 ^ x) }
{
    placed | (1u64 << x)
}

// Stores image x at place i, counted from 1.
fn put(out: &mut [u32], i: usize, x: usize)
    requires { (i < length out.old) × (x < 64) }
    ensures { out.new ≡ set out.old i (suc x) }
{
    out[i] = (x as u32) + 1;
}

// Writes the order from f to last, from its end to its front, each image as soon as it is found. One bit for each image says
// whether it is placed, so that a step looks at n images and nothing else.
#[tactic(auto, using(crate::specs::Laws::Backward::walked_next))]
pub fn write_order(t: &Costs<'_>, f: usize, last: usize, out: &mut [u32])
    requires { (f < t.now.n) × (last < t.now.n) × (t.now.n ≤ length out.old) }
    ensures { out.new ≡ front (map suc (order (costs_in t.now) t.now.n f last)) out.old }
{
    let mut placed = mark(mark(0, f), last);
    let mut x = last;
    put(out, t.n - 1, x);
    for i in (1..t.n - 1).rev() {
        let w = next_left(t, f, x, placed);
        placed = mark(placed, w);
        x = w;
        put(out, i, w);
    }
    put(out, 0, f);
}
