// What the next byte of Newick text makes of what was read. Of that only numbers are kept: how many brackets are open, how many vertices the
// innermost holds, 3 for more, and the same of those around it, in places that the caller lends. The loop over the bytes is in `newick_scan`.
#![tactic(auto)]

ghost use Rattle.std.specs.Prelude.{◌≡◌, ◌<◌, ◌≤◌, length};
ghost use Rattle.newick_bytes.specs.Seen.{Bounded, is_dead_seen, is_done_seen};
ghost use Rattle.newick_bytes.specs.Next.{blank_next, closed, cost_next, digit_next, ended_next, head_next};
ghost use Rattle.newick_bytes.specs.Next.{image_begun, image_next, next_seen, start_next, vertex_next};
ghost use Rattle.newick_bytes.specs.Outer.{next_outer, vertex_outer};

// What was read: x is the number so far.
#[derive(Clone, Copy)]
pub enum Seen {
    Start,
    Vertex {
        depth: usize,
        count: usize,
    },
    Image {
        x: usize,
        depth: usize,
        count: usize,
    },
    Closed {
        depth: usize,
        count: usize,
    },
    Blank {
        depth: usize,
        count: usize,
    },
    Cost {
        x: usize,
        depth: usize,
        count: usize,
    },
    Ended,
    Done,
    Dead,
}

fn after_start(b: u8) -> Seen
    ensures { result ≡ start_next b }
{
    match b {
        b'(' => Seen::Vertex { depth: 1, count: 0 },
        _ => Seen::Dead,
    }
}

// An image begins.
fn begin_image(depth: usize, count: usize, b: u8) -> Seen
    ensures { result ≡ image_begun depth count b }
{
    if newick_allowed::may_begin(depth, count, usize::from(b)) {
        return Seen::Image {
            x: usize::from(b - b'0'),
            depth,
            count,
        };
    }
    Seen::Dead
}

// At the beginning of a vertex. An open bracket keeps the count of the one around it.
fn after_vertex(depth: usize, count: usize, b: u8, outer: &mut [usize]) -> Seen
    requires { (1 ≤ depth) × (depth ≤ 62) × (length outer.old ≡ 64) }
    ensures { (result ≡ vertex_next depth count b) × (outer.new ≡ vertex_outer depth count b outer.old) }
{
    match b {
        b'(' if newick_allowed::may_open(depth, count) => {
            outer[depth - 1] = count;
            Seen::Vertex {
                depth: depth + 1,
                count: 0,
            }
        }
        b'(' => Seen::Dead,
        _ => begin_image(depth, count, b),
    }
}

// Behind the first or the second digit of an image.
fn after_image(x: usize, depth: usize, count: usize, b: u8) -> Seen
    requires { x < 100 }
    ensures { result ≡ image_next x depth count b }
{
    match b {
        b':' => Seen::Blank { depth, count },
        b'0'..=b'9' if newick_allowed::may_grow(x, depth, count) => Seen::Image {
            x: 10 * x + usize::from(b - b'0'),
            depth,
            count,
        },
        _ => Seen::Dead,
    }
}

// Behind a closed bracket.
fn after_closed(depth: usize, count: usize, b: u8) -> Seen
    ensures { result ≡ head_next depth count b }
{
    match b {
        b':' => Seen::Blank { depth, count },
        _ => Seen::Dead,
    }
}

// Behind the colon.
fn after_blank(depth: usize, count: usize, b: u8) -> Seen
    ensures { result ≡ blank_next depth count b }
{
    match b {
        b'0'..=b'9' => Seen::Cost {
            x: usize::from(b - b'0'),
            depth,
            count,
        },
        _ => Seen::Dead,
    }
}

// The innermost bracket closes, and the count of the one around it is taken back.
fn close_bracket(depth: usize, count: usize, outer: &[usize]) -> Seen
    requires { (1 ≤ depth) × (depth ≤ 62) × (length outer.now ≡ 64) }
    ensures { result ≡ closed depth count outer.now }
{
    match depth {
        1 if 3 <= count => Seen::Ended,
        1 => Seen::Dead,
        _ if 2 <= count => Seen::Closed {
            depth: depth - 1,
            count: outer[depth - 2],
        },
        _ => Seen::Dead,
    }
}

// A digit more of a cost, which 0 does not have, nor a number of eight digits.
fn grow_cost(x: usize, depth: usize, count: usize, b: u8) -> Seen
    ensures { result ≡ digit_next x depth count b }
{
    if b.is_ascii_digit() && 1 <= x && x < 10_000_000 {
        return Seen::Cost {
            x: 10 * x + usize::from(b - b'0'),
            depth,
            count,
        };
    }
    Seen::Dead
}

// Behind a digit of a cost.
fn after_cost(x: usize, depth: usize, count: usize, b: u8, outer: &[usize]) -> Seen
    requires { (1 ≤ depth) × (depth ≤ 62) × (length outer.now ≡ 64) }
    ensures { result ≡ cost_next x depth count b outer.now }
{
    let held = newick_allowed::one_more(count);
    match b {
        b',' => Seen::Vertex { depth, count: held },
        b')' => close_bracket(depth, held, outer),
        _ => grow_cost(x, depth, count, b),
    }
}

// Behind the outermost brackets.
fn after_ended(b: u8) -> Seen
    ensures { result ≡ ended_next b }
{
    match b {
        b';' => Seen::Done,
        _ => Seen::Dead,
    }
}

// What the next byte makes of what was read, as a byte.
fn step_by(s: Seen, b: u8, outer: &mut [usize]) -> Seen
    requires { Bounded s × (length outer.old ≡ 64) }
    ensures { (result ≡ next_seen s b outer.old) × (outer.new ≡ next_outer s b outer.old) }
{
    match s {
        Seen::Start => after_start(b),
        Seen::Vertex { depth, count } => after_vertex(depth, count, b, outer),
        Seen::Image { x, depth, count } => after_image(x, depth, count, b),
        Seen::Closed { depth, count } => after_closed(depth, count, b),
        Seen::Blank { depth, count } => after_blank(depth, count, b),
        Seen::Cost { x, depth, count } => after_cost(x, depth, count, b, outer),
        Seen::Ended => after_ended(b),
        Seen::Done | Seen::Dead => Seen::Dead,
    }
}

// What the next byte makes of what was read. A number above 255 is no byte, and nothing goes on by it.
#[tactic(auto, using(crate::specs::Laws::Beyond::beyond_seen, crate::specs::Laws::Beyond::beyond_outer))]
pub fn step(s: Seen, b: usize, outer: &mut [usize]) -> Seen
    requires { Bounded s × (length outer.old ≡ 64) }
    ensures { (result ≡ next_seen s b outer.old) × (outer.new ≡ next_outer s b outer.old) }
{
    if b < 256 {
        return step_by(s, b as u8, outer);
    }
    Seen::Dead
}

// Whether no text of the profile begins so.
pub fn is_dead(s: Seen) -> bool
    ensures { result ≡ is_dead_seen s }
{
    matches!(s, Seen::Dead)
}

// Whether a text of the profile was read.
pub fn is_done(s: Seen) -> bool
    ensures { result ≡ is_done_seen s }
{
    matches!(s, Seen::Done)
}
