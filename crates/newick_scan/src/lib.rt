// Newick text of trees on one way through its bytes: whether it is of the profile, and what it says. Where a text is not of the profile, what
// was noted of it is of no use.
#![tactic(auto)]

ghost use Rattle.std.specs.Prelude.{◌≡◌, ◌<◌, ◌≤◌, eqb, length};
ghost use Rattle.newick_notes.specs.Stacks.{stacks};
ghost use Rattle.newick_notes.specs.Turns.{Begun};
ghost use Rattle.newick_scan.specs.Noting.{EndsBy, Noting, kept};
ghost use Rattle.newick_notes.specs.Able.{Closing, Room};
ghost use Rattle.newick_scan.specs.Able.{Able};
ghost use Rattle.newick_scan.specs.Says.{Says};

use newick_bytes::Seen;
use newick_notes::Noted;

// A vertex begins at this place. Where it is a bracket, what was noted around it is kept for when it closes.
fn begin(
    depth: usize,
    b: u8,
    place: usize,
    w: Noted,
    masks: &mut [u64],
    lasts: &mut [u64],
    places: &mut [usize],
) -> Noted
    requires { (1 ≤ depth) × (depth ≤ 62) × (length masks.old ≡ 64) × (length lasts.old ≡ 64) × (length places.old ≡ 64) }
    ensures { Begun depth b place w (stacks masks.old lasts.old places.old) result
        (stacks masks.new lasts.new places.new) }
{
    if b == b'(' {
        masks[depth - 1] = w.marked;
        lasts[depth - 1] = w.last;
        places[depth - 1] = place;
        return Noted { last: 0, ..w };
    }
    Noted { place, ..w }
}

// Behind a digit of a cost: a comma completes the vertex, and a closed bracket then also closes the bracket around it.
fn end(
    cost: usize,
    depth: usize,
    b: u8,
    w: Noted,
    masks: &[u64],
    lasts: &[u64],
    places: &[usize],
    fars: &mut [u64],
    costs: &mut [u32],
) -> Noted
    requires { (cost < 100000000) × Room w.rows fars.old costs.old × Closing depth w (stacks masks.now lasts.now places.now) }
    ensures { EndsBy (eqb b 44) (eqb b 41) cost depth
        (kept w (stacks masks.now lasts.now places.now) fars.old costs.old)
        (kept result (stacks masks.now lasts.now places.now) fars.new costs.new) }
{
    match b {
        b',' => newick_notes::complete(cost, w, fars, costs),
        b')' => {
            let inner = newick_notes::complete(cost, w, fars, costs);
            newick_notes::close(depth, inner, masks, lasts, places)
        }
        _ => w,
    }
}

// What the byte at this place says, behind what was read before it. It is one that a text of the profile can have there.
fn note(
    s: Seen,
    b: u8,
    place: usize,
    w: Noted,
    masks: &mut [u64],
    lasts: &mut [u64],
    places: &mut [usize],
    fars: &mut [u64],
    costs: &mut [u32],
) -> Noted
    requires { Able s place (kept w (stacks masks.old lasts.old places.old) fars.old costs.old) }
    ensures { Noting s b place
        (kept w (stacks masks.old lasts.old places.old) fars.old costs.old)
        (kept result (stacks masks.new lasts.new places.new) fars.new costs.new) }
{
    match s {
        Seen::Vertex { depth, .. } => begin(depth, b, place, w, masks, lasts, places),
        Seen::Image { x, .. } => newick_notes::name(x, usize::from(b), w),
        Seen::Cost { x, depth, .. } => end(x, depth, b, w, masks, lasts, places, fars, costs),
        _ => w,
    }
}

// One way through the text. The first rows go to the two lent arrays, in the order in which their costs end. Of a text that is not of the
// profile it says how many bytes begin one: the byte behind them is the first that no text of the profile could have there.
pub fn scan(text: &[u8], fars: &mut [u64], costs: &mut [u32]) -> Result<Noted, usize>
    requires { (length fars.old ≡ 128) × (length costs.old ≡ 128) }
    ensures { Says text.now result fars.new costs.new }
{
    let mut outer = [0usize; 64];
    let mut masks = [0u64; 64];
    let mut lasts = [0u64; 64];
    let mut places = [0usize; 64];
    let mut w = newick_notes::nothing();
    let mut s = Seen::Start;
    for (i, byte) in text.iter().enumerate() {
        let next = newick_bytes::step(s, *byte as usize, &mut outer);
        if newick_bytes::is_dead(next) {
            return Err(i);
        }
        w = note(
            s,
            *byte,
            i + 1,
            w,
            &mut masks,
            &mut lasts,
            &mut places,
            fars,
            costs,
        );
        s = next;
    }
    if newick_bytes::is_done(s) {
        return Ok(w);
    }
    Err(text.len())
}
