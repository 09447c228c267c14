// The link table once an image has left, mended from its own rows. Images are counted from 0.
#![tactic(auto)]

ghost use Rattle.std.specs.Prelude.{◌≡◌, suc, ◌<◌, ◌^◌, ◌≤◌};
ghost use Rattle.tree.specs.LocalRows.{rows_in};
ghost use Rattle.rows.specs.Putting.{PutRoom};
ghost use Rattle.mending.specs.Leaving.{mend, named, renamed, take_out};
ghost use Rattle.mending.specs.Mending.{KeepRow, Kept, Mendable};

// The far side s without the bit of image x; those above it move down.
#[tactic(auto, using(crate::specs::Laws::TakeOut::take_out_is, crate::specs::Laws::TakeOut::cut_le))]
fn take_out(x: usize, s: u64) -> u64
    requires { x < 64 }
    ensures { result ≡ take_out x s }
{
    let image = ground::bit_alone(x);
    s % image + (s >> x) / 2 * image
}

// The far side s of m images, named by the group without image 0.
fn name(m: usize, s: u64) -> u64
    requires { (m < 64) × (s < 2 ^ m) }
    ensures { result ≡ named m s }
{
    if s % 2 == 1 {
        ground::bit_alone(m) - 1 - s
    } else {
        s
    }
}

// The far side s of m + 1 images once image x has left; 0 where a group is empty.
#[tactic(auto, using(crate::specs::Laws::TakeOut::take_out_lt))]
fn rename(m: usize, x: usize, s: u64) -> u64
    requires { (m < 64) × (x ≤ m) × (s < 2 ^ suc m) }
    ensures { result ≡ renamed m x s }
{
    name(m, take_out(x, s))
}

// Puts the row s, c among the first `count` rows, or drops it where a group of it is empty; the new number of rows.
#[tactic(auto, using(crate::specs::Laws::Joining::keep_none, crate::specs::Laws::Joining::keep_some))]
fn keep_row(fars: &mut [u64], costs: &mut [u32], count: usize, s: u64, c: u32) -> usize
    requires { PutRoom fars.old costs.old count c }
    ensures { KeepRow fars.old costs.old count s c result fars.new costs.new }
{
    if s == 0 {
        count
    } else {
        rows::put_row(fars, costs, count, s, c)
    }
}

// The first `count` rows, over m + 1 images, once image x has left; how many rows there are then. They are mended in place: what has been
// mended never reaches beyond the row that was looked at last.
pub fn mend(m: usize, x: usize, fars: &mut [u64], costs: &mut [u32], count: usize) -> usize
    requires { (m < 64) × (x ≤ m) × Mendable m fars.old costs.old count }
    ensures { Kept (mend m x (rows_in fars.old costs.old count)) fars.new costs.new result }
{
    let mut all = 0;
    for i in 0..count {
        let s = rename(m, x, fars[i]);
        let c = costs[i];
        all = keep_row(fars, costs, all, s, c);
    }
    all
}
