// A path from the first image, cut where a new image leaves it: how far from the first image that is, and what of the path stays. All costs
// are doubled. Images are counted from 0 but in the order, and places in the order from 0.
#![tactic(auto)]

ghost use Rattle.std.specs.Prelude.{◌≡◌, suc, ◌+◌, ◌-◌, ◌<◌, length};
ghost use Rattle.tables.specs.Entries.{costs_in};
ghost use Rattle.recognition.specs.Recognition.{placed};
ghost use Rattle.recognition.specs.Seats.{seat, Seated};
ghost use Rattle.path_cuts.specs.Cuts.{height, own_cost};
ghost use Rattle.path_cuts.specs.Steps.{AddRow, KeepRoom, KeepRows};

use tables::Costs;

// How far from the first image the paths to the images at place p and after it part.
#[tactic(auto, using(crate::specs::Laws::Seats::height_by))]
pub fn height_at(t: &Costs<'_>, o: &[u32], p: usize) -> u32
    requires { Seated t.now.n o.now × (p + 1 < t.now.n) }
    ensures { result ≡ height (placed (costs_in t.now) (seat o.now)) p (suc p) }
{
    let x = recognition::seat_of(t.n, o, p);
    let z = recognition::seat_of(t.n, o, p + 1);
    (t.entry(0, x) + t.entry(0, z)).saturating_sub(t.entry(x, z))
}

// The cost of the own link of the image after place p, as it is grafted.
#[tactic(auto, using(crate::specs::Laws::Seats::seats_own))]
pub fn own_cost(t: &Costs<'_>, o: &[u32], p: usize) -> u32
    requires { Seated t.now.n o.now × (p + 1 < t.now.n) }
    ensures { result ≡ own_cost (placed (costs_in t.now) (seat o.now)) p }
{
    let x = recognition::seat_of(t.n, o, p);
    let z = recognition::seat_of(t.n, o, p + 1);
    (t.entry(0, z) + t.entry(x, z)).saturating_sub(t.entry(0, x))
}

// Keeps of the first m rows of a path what lies on the side of the first image, up to the height h, where each gets the images of
// `add`; the new number of rows.
#[tactic(auto, using(crate::specs::Laws::Keeping::ends))]
pub fn keep_rows(h: u32, add: u64, m: usize, sides: &mut [u64], lengths: &mut [u32]) -> usize
    requires { KeepRoom add m sides.old lengths.old }
    ensures { KeepRows h add m sides.old lengths.old result sides.new lengths.new }
{
    let mut togo = h;
    for i in 0..m {
        if togo == 0 {
            return i;
        }
        let stays = togo.min(lengths[i]);
        sides[i] = add + sides[i];
        lengths[i] = stays;
        togo -= stays;
    }
    m
}

// Adds the row s, c behind the m rows of a path where it has a cost; the new number of rows.
#[tactic(auto, using(crate::specs::Laws::Keeping::add_none))]
pub fn add_row(sides: &mut [u64], lengths: &mut [u32], m: usize, s: u64, c: u32) -> usize
    requires { (m < length sides.old) × (m < length lengths.old) }
    ensures { AddRow sides.old lengths.old m s c result sides.new lengths.new }
{
    if c == 0 {
        return m;
    }
    sides[m] = s;
    lengths[m] = c;
    m + 1
}
