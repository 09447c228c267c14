// Rows in two local arrays, over one image more: each old row with its cost lowered, put behind those that stay. Images are counted from 0.
#![tactic(auto)]

ghost use Rattle.std.specs.Prelude.{◌≡◌, ◌-◌, ◌*◌, ◌<◌, ◌≤◌, min, length};
ghost use Rattle.ground.specs.Counts.{one_if};
ghost use Rattle.theory.specs.OneMore.{stays};
ghost use Rattle.theory.specs.Tables.{limit};
ghost use Rattle.lowered_rows.specs.Turning.{Turned};
ghost use Rattle.lowered_rows.specs.Putting.{lowered_in, Given, PutAll, PutRoom};

// The cost c, lowered by the value w, from which two limits are taken off; below them it is 0 and nothing is taken off.
fn cost_more(c: u32, w: u32) -> u32
    ensures { result ≡ min c (w - 2 * limit) }
{
    c.min(w.saturating_sub(2 * theory::LIMIT))
}

// 1 for a row over n images that stays, an own link or one with a cost above 0; otherwise 0.
fn stay(n: usize, s: u64, c: u32) -> usize
    ensures { (result ≡ one_if (stays n (s, c))) × (result ≤ 1) }
{
    usize::from(!theory::is_inner(n, s) || 0 < c)
}

// The row of the far side s over the images up to k, its cost c lowered by the value w, stored at the place `at`; the count of rows
// goes on if it stays.
pub fn turn_row(
    k: usize,
    s: u64,
    c: u32,
    w: u32,
    at: usize,
    fars: &mut [u64],
    costs: &mut [u32],
) -> usize
    requires { (k < 64) × (at < length fars.old) × (at < length costs.old) }
    ensures { Turned k s (min c (w - 2 * limit)) at fars.old costs.old result fars.new costs.new }
{
    let v = cost_more(c, w);
    fars[at] = s;
    costs[at] = v;
    at + stay(k + 1, s, v)
}

// The old rows f and v with image k on the side that `add` puts it, behind the rows up to the place `at`; the new count of rows. What
// image k brings to them stands in `best`, at the places `slots`.
pub fn put_rows(
    k: usize,
    add: u64,
    f: &[u64],
    v: &[u32],
    count: usize,
    slots: &[u8],
    best: &[u32],
    at: usize,
    fars: &mut [u64],
    costs: &mut [u32],
) -> usize
    requires { (k < 64) × Given add f.now v.now slots.now best.now count × PutRoom k
        (lowered_in limit add f.now v.now slots.now best.now count) at fars.old costs.old }
    ensures { PutAll k (lowered_in limit add f.now v.now slots.now best.now count) at
        fars.old costs.old result fars.new costs.new }
{
    let mut place = at;
    for i in 0..count {
        let slot = usize::from(slots[i]);
        place = turn_row(k, add + f[i], v[i], best[slot], place, fars, costs);
    }
    place
}
