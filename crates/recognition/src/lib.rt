// Document 001's recognition of a tree: the images are taken in the order from 1 with last n, and each new entry is checked by the
// formula, n²/2 checks in all. Images are counted from 0 but in the order, and places in the order from 0.
#![tactic(auto)]

ghost use Rattle.std.specs.Prelude.{◌≡◌, ◌+◌, ◌-◌, ◌<◌};
ghost use Rattle.tables.specs.Entries.{costs_in};
ghost use Rattle.recognition.specs.Recognition.{all_graft, formula, grafts, placed};
ghost use Rattle.recognition.specs.Seats.{seat, Seated};

use tables::Costs;

// The image at place i of an order, counted from 0.
pub fn seat_of(n: usize, o: &[u32], i: usize) -> usize
    requires { Seated n o.now × (i < n) }
    ensures { (result ≡ seat o.now i) × (result < n) }
{
    o[i] as usize - 1
}

// Whether the formula gives the entry of z and j, where x stands just before z; fx, fz and xz are the entries of these two and the
// first image, which are the same for all j.
fn is_recognised(t: &Costs<'_>, x: usize, z: usize, fx: u32, fz: u32, xz: u32, j: usize) -> bool
    requires { (x < t.now.n) × (z < t.now.n) × (j < t.now.n) × (fx ≡ costs_in t.now 0 x) × (fz ≡ costs_in t.now 0 z)
        × (xz ≡ costs_in t.now x z) }
    ensures { result ≡ formula (costs_in t.now) 0 x z j }
{
    let fj = t.entry(0, j);
    let xj = t.entry(x, j);
    let zj = t.entry(z, j);
    zj + fx == (fj + xz).max(fz + xj)
}

// Whether the image after place p can be grafted: its own link costs no less than 0, and the formula gives its entry with each image
// placed before.
fn can_graft(t: &Costs<'_>, o: &[u32], p: usize) -> bool
    requires { Seated t.now.n o.now × (p + 1 < t.now.n) }
    ensures { result ≡ grafts (placed (costs_in t.now) (seat o.now)) p }
{
    let x = seat_of(t.n, o, p);
    let z = seat_of(t.n, o, p + 1);
    let fx = t.entry(0, x);
    let fz = t.entry(0, z);
    let xz = t.entry(x, z);
    if fz + xz < fx {
        return false;
    }
    for i in 0..=p {
        if !is_recognised(t, x, z, fx, fz, xz, seat_of(t.n, o, i)) {
            return false;
        }
    }
    true
}

// Whether every image after the first can be grafted in the order o.
pub fn can_graft_all(t: &Costs<'_>, o: &[u32]) -> bool
    requires { Seated t.now.n o.now }
    ensures { result ≡ all_graft (placed (costs_in t.now) (seat o.now)) (t.now.n - 1) }
{
    for p in 0..t.n - 1 {
        if !can_graft(t, o, p) {
            return false;
        }
    }
    true
}
