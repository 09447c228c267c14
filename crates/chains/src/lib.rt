// What one image more, k, brings to all sides of a reading at once. A side is a number whose ones are the images on the other side
// of k. For an image z the sides that hold z grow, so that one walk up and down them gives each what k brings with z.
#![tactic(auto)]

ghost use Rattle.std.specs.Prelude.{◌≡◌, ◌+◌, ◌*◌, ◌^◌, ◌<◌, ◌≤◌, min, get_or, length, set};
ghost use Rattle.ground.specs.Bits.{bit};
ghost use Rattle.ground.specs.Least.{least_on};
ghost use Rattle.theory.specs.Tables.{limit};
ghost use Rattle.tables.specs.Entries.{costs_in};
ghost use Rattle.upper_sides.specs.Chains.{ahead, gap_on, Chained, Family};
ghost use Rattle.upper_sides.specs.Links.{Linked};
ghost use Rattle.chains.specs.Walks.{Climbed, Up};
ghost use Rattle.chains.specs.Values.{Least, Brought};
ghost use Rattle.chains.specs.Laws.Climbs.{kept3};

use tables::Costs;

// The least over some images: of how much farther each is from k than from z, and of how much farther from z than from k.
#[derive(Clone, Copy, Drop)]
struct Both {
    near: u32,
    apart: u32,
}

// How far up a chain: the side held, the least over it, and how many sides it has below, itself among them.
#[derive(Clone, Copy, Drop)]
struct Cut {
    held: u64,
    near: u32,
    depth: usize,
}

// Image y takes its turn at the least of limit + d(p,y) - d(q,y) so far.
fn turn_ahead(t: &Costs<'_>, p: usize, q: usize, y: usize, best: u32) -> u32
    requires { (p < t.now.n) × (q < t.now.n) × (y < t.now.n) }
    ensures { result ≡ min (ahead limit (costs_in t.now) p q y) best }
{
    let a = t.entry(p, y);
    let b = t.entry(q, y);
    best.min(theory::LIMIT + a - b)
}

// The least over the images of m, both ways.
fn level(t: &Costs<'_>, k: usize, z: usize, m: u64, near: u32) -> Both
    requires { (k < t.now.n) × (z < t.now.n) × (m < 2 ^ k) × (near ≤ 4 * limit) }
    ensures { (result.near ≡ min near (least_on k (bit m) 1 (4 * limit) (ahead limit (costs_in t.now) k z)))
        × (result.apart ≡ gap_on limit (costs_in t.now) k z m) }
{
    let mut low = near;
    let mut gap = theory::CAP;
    let mut rest = m;
    // A `while`: it goes from one image of the side to the next.
    while rest != 0 {
        let y = upper_sides::lowest(rest);
        low = turn_ahead(t, k, z, y, low);
        gap = turn_ahead(t, z, k, y, gap);
        rest = upper_sides::without_lowest(rest);
    }
    Both {
        near: low,
        apart: gap,
    }
}

// What is kept of the side of this depth: the least over it, what it adds beside the side before it, and its place. The depth after it.
fn keep_step(depth: usize, near: u32, apart: u32, place: u32, steps: &mut [u32]) -> usize
    requires { (depth < 128) × (length steps.old ≡ 384) }
    ensures { (result ≡ depth + 1) × (steps.new ≡ kept3 steps.old depth near apart place) }
{
    steps[3 * depth] = near;
    steps[3 * depth + 1] = apart;
    steps[3 * depth + 2] = place;
    depth + 1
}

// Past the side at place i, which holds z, up the chain of z.
fn turn_up(
    t: &Costs<'_>,
    k: usize,
    z: usize,
    sides: &[u64],
    i: usize,
    cut: Cut,
    steps: &mut [u32],
) -> Cut
    requires { (k < t.now.n) × (z < k) × (i < 128) × (length sides.now ≡ 128) × Chained k sides.now (i + 1)
        × (bit (get_or sides.now i 0) z ≡ 1) × Up limit (costs_in t.now) k z sides.now i cut.held cut.near cut.depth steps.old }
    ensures { Up limit (costs_in t.now) k z sides.now (i + 1) result.held result.near result.depth steps.new }
{
    let s = sides[i];
    let b = level(t, k, z, s - cut.held, cut.near);
    let near = b.near;
    let depth = keep_step(cut.depth, near, b.apart, i as u32, steps);
    Cut {
        held: s,
        near,
        depth,
    }
}

// Up the chain of z, from z alone past all sides that hold it; how many they are.
fn up(
    t: &Costs<'_>,
    k: usize,
    z: usize,
    sides: &[u64],
    count: usize,
    links: &[u8],
    steps: &mut [u32],
) -> usize
    requires { (k < t.now.n) × (z < k) × Family k sides.now count × Linked sides.now count links.now
        × (length steps.old ≡ 384) }
    ensures { Climbed limit (costs_in t.now) k z sides.now count result steps.new }
{
    let alone = ground::bit_alone(z);
    let mut cut = Cut {
        held: alone,
        near: theory::LIMIT + t.entry(k, z),
        depth: 0,
    };
    let mut i = usize::from(links[128 + z]);
    // A `while`: it goes up the links from side to side.
    while i < count {
        cut = turn_up(t, k, z, sides, i, cut, steps);
        i = usize::from(links[i]);
    }
    cut.depth
}

// The side of depth q is lowered by the least over it and a, the least beside it; the least beside the side before it.
fn turn_down(q: usize, a: u32, steps: &[u32], best: &mut [u32]) -> u32
    requires { (q < 128) × (length steps.now ≡ 384) × (length best.old ≡ 192) × (get_or steps.now (3 * q) 0 ≤ 4 * limit)
        × (get_or steps.now (3 * q + 2) 0 < 128) × (a ≤ 4 * limit) }
    ensures { (result ≡ min a (get_or steps.now (3 * q + 1) 0))
        × (best.new ≡ set best.old (64 + get_or steps.now (3 * q + 2) 0)
        (min (get_or best.old (64 + get_or steps.now (3 * q + 2) 0) 0) (get_or steps.now (3 * q) 0 + a))) }
{
    let i = steps[3 * q + 2] as usize;
    best[64 + i] = best[64 + i].min(steps[3 * q] + a);
    a.min(steps[3 * q + 1])
}

// Image z takes its turn: up its chain, and down again from all images to z alone. Every side that holds z is lowered by what image
// k brings with z, and z's own link gets its value.
fn turn_image(
    t: &Costs<'_>,
    k: usize,
    z: usize,
    sides: &[u64],
    count: usize,
    links: &[u8],
    steps: &mut [u32],
    best: &mut [u32],
)
    requires { (k < t.now.n) × (z < k) × Family k sides.now count × Linked sides.now count links.now
        × (length steps.old ≡ 384) × Least limit (costs_in t.now) k sides.now count z best.old }
    ensures { Least limit (costs_in t.now) k sides.now count (z + 1) best.new }
{
    let depth = up(t, k, z, sides, count, links, steps);
    let alone = theory::LIMIT + t.entry(k, z);
    let mut a = alone;
    for q in (0..depth).rev() {
        a = turn_down(q, a, steps, best);
    }
    best[z] = alone + a;
}

// What image k brings to each of the sides, and to each own link of the first k images.
pub fn images(
    t: &Costs<'_>,
    k: usize,
    sides: &[u64],
    count: usize,
    steps: &mut [u32],
    best: &mut [u32],
)
    requires { (k < t.now.n) × Family k sides.now count × (length steps.old ≡ 384) × Least limit (costs_in t.now) k
        sides.now count 0 best.old }
    ensures { Brought limit (costs_in t.now) k sides.now count best.new }
{
    let mut links = [0u8; 192];
    upper_sides::link(sides, count, &mut links);
    for z in 0..k {
        turn_image(t, k, z, sides, count, &links, steps, best);
    }
}
