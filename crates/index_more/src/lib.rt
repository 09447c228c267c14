// What one image more brings to the index of a division: the images of both sides in two lists, and the least value over them. Images are
// counted from 0.
#![tactic(auto)]

ghost use Rattle.std.specs.Prelude.{◌≡◌, ◌+◌, ◌-◌, ◌*◌, ◌<◌, ◌≤◌, min, get_or, length};
ghost use Rattle.ground.specs.Bits.{bit};
ghost use Rattle.theory.specs.OneMore.{brought_fast};
ghost use Rattle.theory.specs.Tables.{limit};
ghost use Rattle.tables.specs.Entries.{costs_in};
ghost use Rattle.index_more.specs.Sides.{Images, BothSides, more_at, near_at, choices_at, side_at};

use tables::Costs;

// Image b is put behind the images of either side, and the count of side h goes on where it is there.
fn turn_sides(s: u64, h: u64, b: usize, count: usize, own: &mut [u8], other: &mut [u8]) -> usize
    requires { (b < 64) × (h < 2) × (64 ≤ length own.old) × (64 ≤ length other.old) × BothSides (bit s) h b count own.old other.old }
    ensures { BothSides (bit s) h (b + 1) result own.new other.new }
{
    own[count] = b as u8;
    other[b - count] = b as u8;
    count + usize::from(ground::side(s, b) == h)
}

// The images up to k, side by side: those of side h in `own`, the others in `other`; how many are in `own`.

fn sides(s: u64, h: u64, k: usize, own: &mut [u8], other: &mut [u8]) -> usize
    requires { (k < 64) × (h < 2) × (64 ≤ length own.old) × (64 ≤ length other.old) }
    ensures { BothSides (bit s) h (k + 1) result own.new other.new }
{
    let mut count = 0;
    for b in 0..k + 1 {
        count = turn_sides(s, h, b, count, own, other);
    }
    count
}

// Image b takes its turn at the least of limit + d(k,b) - d(b,e) so far.
fn turn_near(t: &Costs<'_>, k: usize, e: usize, b: usize, best: u32) -> u32
    requires { (k < t.now.n) × (e < t.now.n) × (b < t.now.n) }
    ensures { result ≡ min (limit + costs_in t.now k b - costs_in t.now b e) best }
{
    let x = t.entry(k, b);
    let y = t.entry(e, b);
    best.min(theory::LIMIT + x - y)
}

// The least of limit + d(k,b) - d(b,e) over the images b of the other side.
#[tactic(auto, using(crate::specs::Laws::Sides::over_places))]
fn near(t: &Costs<'_>, k: usize, e: usize, other: &[u8]) -> u32
    requires { Images t.now.n (length other.now) other.now × (k < t.now.n) × (e < t.now.n) }
    ensures { (result ≡ near_at limit (costs_in t.now) k other.now (length other.now) e) × (result ≤ 4 * limit) }
{
    let mut best = theory::CAP;
    for b in other {
        best = turn_near(t, k, e, usize::from(*b), best);
    }
    best
}

// Image a takes its turn at the least of low + limit + d(a,e) - d(k,a) so far.
fn turn_side(t: &Costs<'_>, k: usize, e: usize, low: u32, a: usize, best: u32) -> u32
    requires { (k < t.now.n) × (e < t.now.n) × (a < t.now.n) × (low ≤ 4 * limit) }
    ensures { result ≡ min (low + (limit + costs_in t.now a e - costs_in t.now k a)) best }
{
    let x = t.entry(e, a);
    let y = t.entry(k, a);
    best.min(low + (theory::LIMIT + x - y))
}

// The least value of the choices of image k with e on the other side: low is the least over b, and a goes over k's own side, k among it.
#[tactic(auto, using(crate::specs::Laws::Sides::over_places))]
fn least_side(t: &Costs<'_>, k: usize, e: usize, low: u32, own: &[u8]) -> u32
    requires { Images t.now.n (length own.now) own.now × (k < t.now.n) × (e < t.now.n) × (low ≤ 4 * limit) }
    ensures { result ≡ side_at limit (costs_in t.now) k own.now (length own.now) e low }
{
    let mut best = theory::CAP;
    for a in own {
        best = turn_side(t, k, e, low, usize::from(*a), best);
    }
    best
}

// The least value of the choices of image k with e, and of those so far.
fn turn_more(t: &Costs<'_>, k: usize, own: &[u8], other: &[u8], e: usize, best: u32) -> u32
    requires { Images t.now.n (length own.now) own.now × Images t.now.n (length other.now) other.now × (k < t.now.n) × (e < t.now.n) }
    ensures { result ≡ min (choices_at limit (costs_in t.now) k own.now (length own.now) other.now (length other.now) e) best }
{
    let low = near(t, k, e, other);
    best.min(least_side(t, k, e, low, own))
}

// The least value of the choices that image k brings.
#[tactic(auto, using(crate::specs::Laws::Sides::over_places))]
fn least_more(t: &Costs<'_>, k: usize, own: &[u8], other: &[u8]) -> u32
    requires { Images t.now.n (length own.now) own.now × Images t.now.n (length other.now) other.now × (k < t.now.n) }
    ensures { result ≡ more_at limit (costs_in t.now) k own.now (length own.now) other.now (length other.now) }
{
    let mut best = theory::CAP;
    for e in other {
        best = turn_more(t, k, own, other, usize::from(*e), best);
    }
    best
}

// Law I4, one image more: the least of v, the value over the first k images, and of the choices that image k brings, in k² steps.
#[tactic(auto, using(ground::specs::Laws::Bits::bit_lt, crate::specs::Laws::Sides::over_sides))]
pub fn one_more(t: &Costs<'_>, s: u64, k: usize, v: u32) -> u32
    requires { k < t.now.n }
    ensures { result ≡ min v (brought_fast limit (costs_in t.now) k (bit s)) }
{
    let mut own = [0u8; 64];
    let mut other = [0u8; 64];
    let count = sides(s, ground::side(s, k), k, &mut own, &mut other);
    v.min(least_more(t, k, &own[..count], &other[..k + 1 - count]))
}
