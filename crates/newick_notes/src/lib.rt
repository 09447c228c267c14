// What is noted of a Newick text on the way through its bytes: images named, vertices complete with their costs, and brackets that close.
#![tactic(auto)]

ghost use Rattle.std.specs.Prelude.{◌≡◌, ◌<◌, ◌≤◌};
ghost use Rattle.newick_text.specs.Noting.{image_bit, lower_place, mark};
ghost use Rattle.newick_notes.specs.Stacks.{stacks};
ghost use Rattle.newick_notes.specs.Turns.{Completed, Stored, closed, fallen_with, named_by, noted};
ghost use Rattle.newick_notes.specs.Able.{Closing, Room};

// What was noted. Far, place and last are of the vertex whose cost is read: its far side, the place of its first byte, and the far side of
// the sibling before it, 0 for none.
#[derive(Clone, Copy)]
pub struct Noted {
    // How many images were named.
    pub names: usize,
    // Which, up to 64.
    pub marked: u64,
    // How many rows stand in the two arrays.
    pub rows: usize,
    // The lowest place of a sibling whose far side is below the one before, 0 for none.
    pub fallen: usize,
    pub far: u64,
    pub place: usize,
    pub last: u64,
}

// Nothing was noted yet.
pub fn nothing() -> Noted
    ensures { result ≡ noted 0 0 0 0 0 0 0 }
{
    Noted {
        names: 0,
        marked: 0,
        rows: 0,
        fallen: 0,
        far: 0,
        place: 0,
        last: 0,
    }
}

// An image as a far side; those above 64 have none.
fn image_bit(x: usize) -> u64
    requires { 1 ≤ x }
    ensures { result ≡ image_bit x }
{
    if 64 < x {
        return 0;
    }
    ground::bit_alone(x - 1)
}

// One image more is named.
#[tactic(auto, using(crate::proofs::Marks::mark_fits))]
fn mark(m: u64, x: usize) -> u64
    requires { 1 ≤ x }
    ensures { result ≡ mark m x }
{
    if 64 < x || ground::side(m, x - 1) == 1 {
        return m;
    }
    ground::bit_alone(x - 1) + m
}

// The lower of two places, 0 being none.
fn lower_place(p: usize, q: usize) -> usize
    ensures { result ≡ lower_place p q }
{
    match (p, q) {
        (0, _) => q,
        (_, 0) => p,
        _ => p.min(q),
    }
}

// Behind the digits of an image it is named.
pub fn name(x: usize, b: usize, w: Noted) -> Noted
    requires { (1 ≤ x) × (w.names < 18446744073709551615) }
    ensures { result ≡ named_by b x w }
{
    if b != usize::from(b':') {
        return w;
    }
    Noted {
        names: w.names + 1,
        marked: mark(w.marked, x),
        far: image_bit(x),
        ..w
    }
}

// One row more, where there is room: of 64 images there are at most 125 rows.
#[tactic(auto, using(crate::specs::Laws::Storing::stored_full))]
fn store(rows: usize, far: u64, cost: usize, fars: &mut [u64], costs: &mut [u32]) -> usize
    requires { (cost < 100000000) × Room rows fars.old costs.old }
    ensures { Stored fars.old costs.old rows far cost fars.new costs.new result }
{
    if rows < 128 {
        fars[rows] = far;
        costs[rows] = cost as u32;
        return rows + 1;
    }
    rows
}

// The lowest place so far of a sibling whose far side is below the one before.
fn fall(w: Noted) -> usize
    ensures { result ≡ fallen_with w }
{
    if w.far < w.last {
        return lower_place(w.fallen, w.place);
    }
    w.fallen
}

// A vertex is complete with its cost.
pub fn complete(cost: usize, w: Noted, fars: &mut [u64], costs: &mut [u32]) -> Noted
    requires { (cost < 100000000) × Room w.rows fars.old costs.old }
    ensures { Completed cost w fars.old costs.old result fars.new costs.new }
{
    Noted {
        rows: store(w.rows, w.far, cost, fars, costs),
        fallen: fall(w),
        last: w.far,
        ..w
    }
}

// A bracket closes: its far side is what was named in it, and what was kept when it opened is taken back.
pub fn close(depth: usize, w: Noted, masks: &[u64], lasts: &[u64], places: &[usize]) -> Noted
    requires { Closing depth w (stacks masks.now lasts.now places.now) }
    ensures { result ≡ closed depth (stacks masks.now lasts.now places.now) w }
{
    if depth < 2 {
        return w;
    }
    Noted {
        far: w.marked - masks[depth - 2],
        place: places[depth - 2],
        last: lasts[depth - 2],
        ..w
    }
}
