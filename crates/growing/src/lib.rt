// One image more: the rows that a reading has with it, from those that it had before. Images are counted from 0.
#![tactic(auto)]

ghost use Rattle.std.specs.Prelude.{◌≡◌, ◌+◌, ◌<◌, ◌≤◌, length};
ghost use Rattle.theory.specs.Tables.{limit};
ghost use Rattle.tables.specs.Entries.{costs_in};
ghost use Rattle.growing.specs.Held.{RowsHeld};

use tables::Costs;

// The rows over one image more, k, from the rows f and v over the first k: the old rows with image k outside, its own link, the old
// rows with image k inside. They ascend by themselves, and no more than two are added (Law C3). `steps` and `best` are lent for the
// work, and so is `fars` until the new rows are put there.
pub fn grow(
    t: &Costs<'_>,
    k: usize,
    f: &[u64],
    v: &[u32],
    count: usize,
    fars: &mut [u64],
    costs: &mut [u32],
    steps: &mut [u32],
    best: &mut [u32],
) -> usize
    requires { (1 ≤ k) × (k < t.now.n) × RowsHeld limit (costs_in t.now) k f.now v.now count × (length fars.old ≡ 128)
        × (length costs.old ≡ 128) × (length steps.old ≡ 384) × (length best.old ≡ 192) }
    ensures { RowsHeld limit (costs_in t.now) (k + 1) fars.new costs.new result }
{
    let mut outs = [0u8; 128];
    let mut ins = [0u8; 128];
    let own = brought::brought(t, k, f, count, &mut outs, &mut ins, fars, steps, best);
    let value = best[own];
    let image = ground::bit_alone(k);
    let outside = lowered_rows::put_rows(k, 0, f, v, count, &outs, best, 0, fars, costs);
    let middle = lowered_rows::turn_row(k, image, 2 * theory::LIMIT, value, outside, fars, costs);
    lowered_rows::put_rows(k, image, f, v, count, &ins, best, middle, fars, costs)
}
