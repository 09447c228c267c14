// The far end of a cost table, where the ring of the listing closes: the image farthest from image 1. Images are counted from 0.
#![tactic(auto)]

ghost use Rattle.std.specs.Prelude.{◌≡◌, ◌<◌};
ghost use Rattle.tables.specs.Entries.{costs_in};
ghost use Rattle.far_end.specs.FarEnd.{far_end, farther_of};

use tables::Costs;

// The farther of w and x from image 0, and x where both cost the same.
fn farther(t: &Costs<'_>, w: usize, x: usize) -> usize
    requires { (w < t.now.n) × (x < t.now.n) }
    ensures { result ≡ farther_of (costs_in t.now) w x }
{
    let far = t.entry(0, w);
    let farthest = t.entry(0, x);
    if farthest < far { w } else { x }
}

// The other image with the greatest cost from image 0, the lowest on a tie.
#[tactic(auto, using(crate::proofs::Laws::FarEnd::turns))]
pub fn far_end(t: &Costs<'_>) -> usize
    ensures { result ≡ far_end (costs_in t.now) t.now.n }
{
    let mut x = 1;
    for w in 2..t.n {
        x = farther(t, w, x);
    }
    x
}
