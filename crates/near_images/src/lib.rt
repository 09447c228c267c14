// The image that is nearest to a new one, k, as seen from image 0, the images near where the two part, and which rows may stay by them.
#![tactic(auto)]

ghost use Rattle.std.specs.Prelude.{◌≡◌, ◌+◌, ◌<◌, ◌≤◌, ltb};
ghost use Rattle.tables.specs.Entries.{costs_in};
ghost use Rattle.upper_sides.specs.Chains.{pick};
ghost use Rattle.near_images.specs.Near.{Closest, NearImages, near_image, goes_out, goes_in};

use tables::Costs;

// Of b and y the one that is nearer to k, as seen from image 0.
fn closer(t: &Costs<'_>, k: usize, b: usize, y: usize) -> usize
    requires { (k < t.now.n) × (b < t.now.n) × (y < t.now.n) }
    ensures { result ≡ pick (ltb (costs_in t.now k y + costs_in t.now 0 b)
        (costs_in t.now k b + costs_in t.now 0 y)) y b }
{
    let x = t.entry(k, y) + t.entry(0, b);
    let w = t.entry(k, b) + t.entry(0, y);
    if x < w { y } else { b }
}

// The image that is nearest to k, as seen from image 0.
pub fn closest(t: &Costs<'_>, k: usize) -> usize
    requires { (1 ≤ k) × (k < t.now.n) }
    ensures { Closest (costs_in t.now) k k result }
{
    let mut b = 1;
    for y in 2..k {
        b = closer(t, k, b, y);
    }
    b
}

// Whether y is b or on the near side of where k and b part from image 0.
fn is_near(t: &Costs<'_>, k: usize, b: usize, y: usize) -> bool
    requires { (k < t.now.n) × (b < t.now.n) × (y < t.now.n) }
    ensures { result ≡ near_image (costs_in t.now) k b y }
{
    y == b || t.entry(k, 0) + t.entry(b, y) < t.entry(k, b) + t.entry(0, y)
}

// The near images below y, and y if it is one.
fn with_near(t: &Costs<'_>, k: usize, b: usize, y: usize, m: u64) -> u64
    requires { (k < t.now.n) × (b < t.now.n) × (1 ≤ y) × (y < t.now.n) × NearImages (costs_in t.now) k b y m }
    ensures { NearImages (costs_in t.now) k b (y + 1) result }
{
    if is_near(t, k, b, y) {
        ground::bit_alone(y) + m
    } else {
        m
    }
}

// The near images, as a number.
pub fn near_images(t: &Costs<'_>, k: usize, b: usize) -> u64
    requires { (1 ≤ k) × (k < t.now.n) × (b < t.now.n) }
    ensures { NearImages (costs_in t.now) k b k result }
{
    let mut m = 0;
    for y in 1..k {
        m = with_near(t, k, b, y, m);
    }
    m
}

// Whether the row s may stay with image k outside.
pub fn goes_out(b: usize, near: u64, s: u64) -> bool
    requires { b < 64 }
    ensures { result ≡ goes_out b near s }
{
    ground::side(s, b) == 0 || s & near == s
}

// Whether it may stay with image k inside.
pub fn goes_in(near: u64, s: u64) -> bool
    ensures { result ≡ goes_in near s }
{
    s & near == near
}
