// Sides in a list such that those that hold an image grow: the upper side of each, and the first side of each image. A side is a number
// whose ones are the images on the other side of the new one.
#![tactic(auto)]

ghost use Rattle.std.specs.Prelude.{◌≡◌, ◌+◌, ◌-◌, ◌<◌, ◌≤◌, eqb, length};
ghost use Rattle.std.specs.Int.Bits.{bit_and};
ghost use Rattle.std.specs.Int.Count.{count_trailing_zeros};
ghost use Rattle.upper_sides.specs.Links.{FirstContaining, PlacesMarked, Linking, Linked};

// The place of the lowest one of m.
pub fn lowest(m: u64) -> usize
    ensures { result ≡ count_trailing_zeros 64 m }
{
    u64::trailing_zeros(m) as usize
}

// m without its lowest one.
pub fn without_lowest(m: u64) -> u64
    requires { 0 < m }
    ensures { result ≡ bit_and m (m - 1) }
{
    m & (m - 1)
}

// Whether the side s contains m.
fn contains(s: u64, m: u64) -> bool
    ensures { result ≡ eqb (bit_and m s) m }
{
    m & s == m
}

// The first place from `from` on whose side contains s, or the number of sides where there is none.
fn next(sides: &[u64], count: usize, s: u64, from: usize) -> usize
    requires { (count ≤ length sides.now) × (from ≤ count) }
    ensures { FirstContaining sides.now count s from result }
{
    for j in from..count {
        if contains(sides[j], s) {
            return j;
        }
    }
    count
}

// Every image of m has its first side at place j.
fn mark(m: u64, j: usize, links: &mut [u8])
    requires { (j < 128) × (length links.old ≡ 192) }
    ensures { PlacesMarked m j 0 links.old links.new }
{
    let mut rest = m;
    // A `while`: it goes from one image of m to the next.
    while rest != 0 {
        links[128 + lowest(rest)] = j as u8;
        rest = without_lowest(rest);
    }
}

// Side i gets its upper side, and the images that none of the sides before it holds their first; all images seen so far.
fn turn_link(sides: &[u64], count: usize, i: usize, seen: u64, links: &mut [u8]) -> u64
    requires { (length sides.now ≡ 128) × (i < count) × (count ≤ 128) × Linking sides.now count i seen links.old }
    ensures { Linking sides.now count (i + 1) result links.new }
{
    let s = sides[i];
    links[i] = next(sides, count, s, i + 1) as u8;
    let both = seen | s;
    mark(both - seen, i, links);
    both
}

// The upper side of each side, the place of the first later one that contains it; and from place 128 on the first side of each image.
pub fn link(sides: &[u64], count: usize, links: &mut [u8])
    requires { (length sides.now ≡ 128) × (count ≤ 128) × (length links.old ≡ 192) }
    ensures { Linked sides.now count links.new }
{
    let mut seen = 0;
    for i in 0..count {
        seen = turn_link(sides, count, i, seen, links);
    }
}
