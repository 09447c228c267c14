// What image k brings to the rows over the first k images: which of them can stay, the sides that are asked for these, and the values.
#![tactic(auto)]

ghost use Rattle.std.specs.Prelude.{◌≡◌, ◌+◌, ◌-◌, ◌*◌, ◌^◌, ◌<◌, ◌≤◌, length, set};
ghost use Rattle.ground.specs.Counts.{one_if};
ghost use Rattle.theory.specs.Tables.{limit};
ghost use Rattle.tables.specs.Entries.{costs_in};
ghost use Rattle.brought.specs.Answers.{AllBrought};
ghost use Rattle.brought.specs.Choosing.{in_side, in_live, SidePut, Room, Outs, Ins};
ghost use Rattle.brought.specs.Chosen.{one_image, is_stored, slot_of, stored_of, Rising, Rowed};

use tables::Costs;

// Whether a side has one image alone.
fn is_alone(s: u64) -> bool
    requires { 0 < s }
    ensures { result ≡ one_image s }
{
    s & (s - 1) == 0
}

// 1 where a side is stored, otherwise 0.
fn takes(live: bool, s: u64) -> usize
    requires { 0 < s }
    ensures { (result ≡ one_if (is_stored live s)) × (result ≤ 1) }
{
    usize::from(live && !is_alone(s))
}

// Where the value of a side will stand.
fn slot(live: bool, s: u64, place: usize) -> usize
    requires { (0 < s) × (place < 128) }
    ensures { (result ≡ slot_of live s place) × (result < 192) }
{
    if is_alone(s) {
        upper_sides::lowest(s)
    } else if live {
        64 + place
    } else {
        63
    }
}

// Side s is stored behind the m sides so far, for good where it may stay and is no image alone; the number of sides then. At place i
// of `slots` stands where its value will be.
fn store(
    live: bool,
    s: u64,
    m: usize,
    i: usize,
    sides: &mut [u64],
    slots: &mut [u8],
    best: &mut [u32],
) -> usize
    requires { (0 < s) × (m < 128) × (i < 128) × Room sides.old slots.old best.old }
    ensures { SidePut limit live s m i sides.old slots.old best.old result sides.new slots.new
        best.new }
{
    sides[m] = s;
    best[64 + m] = theory::CAP;
    slots[i] = slot(live, s, m) as u8;
    m + takes(live, s)
}

// The rows go by with image k outside, ascending: of those that may stay the far sides are stored; how many.
fn choose_out(
    b: usize,
    near: u64,
    fars: &[u64],
    count: usize,
    sides: &mut [u64],
    outs: &mut [u8],
    best: &mut [u32],
) -> usize
    requires { (b < 64) × Rising fars.now count × Room sides.old outs.old best.old }
    ensures { Outs limit b near fars.now count result sides.new outs.new best.new }
{
    let mut m = 0;
    for i in 0..count {
        let s = fars[i];
        m = store(
            near_images::goes_out(b, near, s),
            s,
            m,
            i,
            sides,
            outs,
            best,
        );
    }
    m
}

// The rows go by with image k inside, descending: of those that may stay what they do not hold of the first k images is stored, behind
// the `low` sides that stand there; how many sides then.
fn choose_in(
    k: usize,
    near: u64,
    fars: &[u64],
    count: usize,
    low: usize,
    sides: &mut [u64],
    ins: &mut [u8],
    best: &mut [u32],
) -> usize
    requires { (1 ≤ k) × (k < 64) × Rowed k fars.now count × (low + stored_of (in_side k fars.now) (in_live near fars.now) count < 128) × Room
        sides.old ins.old best.old }
    ensures { Ins limit k near fars.now 0 count low result sides.old best.old sides.new ins.new
        best.new }
{
    let full = ground::bit_alone(k) - 1;
    let mut m = low;
    for i in (0..count).rev() {
        let s = fars[i];
        m = store(
            near_images::goes_in(near, s),
            full - s,
            m,
            i,
            sides,
            ins,
            best,
        );
    }
    m
}

// All images but k are stored as the last side, behind m sides, and at place 63 a value for the sides that are not asked; how many
// sides then.
fn put_whole(k: usize, m: usize, sides: &mut [u64], best: &mut [u32]) -> usize
    requires { (k < 64) × (m < 127) × (length sides.old ≡ 128) × (length best.old ≡ 192) }
    ensures { (result ≡ m + 1) × (result ≤ 127) × (sides.new ≡ set sides.old m (2 ^ k - 1))
        × (best.new ≡ set (set best.old 63 0) (64 + m) (4 * limit)) }
{
    sides[m] = ground::bit_alone(k) - 1;
    best[63] = 0;
    best[64 + m] = theory::CAP;
    m + 1
}

// What image k brings to the rows over the first k images, image k outside and inside: the values `best` at the places `outs` and
// `ins`; and the place of what it brings to its own link. In `sides` and `steps`, lent for the work, nothing is left that counts.
pub fn brought(
    t: &Costs<'_>,
    k: usize,
    fars: &[u64],
    count: usize,
    outs: &mut [u8],
    ins: &mut [u8],
    sides: &mut [u64],
    steps: &mut [u32],
    best: &mut [u32],
) -> usize
    requires { (1 ≤ k) × (k < t.now.n) × Rowed k fars.now count × (length outs.old ≡ 128) × (length ins.old ≡ 128)
        × (length sides.old ≡ 128) × (length steps.old ≡ 384) × (length best.old ≡ 192) }
    ensures { AllBrought limit (costs_in t.now) k fars.now count result outs.new ins.new best.new }
{
    let b = near_images::closest(t, k);
    let near = near_images::near_images(t, k, b);
    let low = choose_out(b, near, fars, count, sides, outs, best);
    let m = choose_in(k, near, fars, count, low, sides, ins, best);
    let all = put_whole(k, m, sides, best);
    chains::images(t, k, sides, all, steps, best);
    63 + all
}
