// What may follow where a Newick text stands, by numbers alone: whether a bracket may open, and an image begin or have a second digit.
#![tactic(auto)]

ghost use Rattle.std.specs.Prelude.{◌≡◌};
ghost use Rattle.newick_allowed.specs.Tests.{begun, first_place, grown, more, opened};

// Whether image 1 must follow.
fn is_first(depth: usize, count: usize) -> bool
    ensures { result ≡ first_place depth count }
{
    depth == 1 && count == 0
}

// One vertex more, 3 for more than two.
pub fn one_more(count: usize) -> usize
    ensures { result ≡ more count }
{
    count.min(2) + 1
}

// Whether a bracket may open: not in the first place, and not as the 63rd.
pub fn may_open(depth: usize, count: usize) -> bool
    ensures { result ≡ opened depth count }
{
    !is_first(depth, count) && depth < 62
}

// Whether an image may begin with the byte: 1 to 9, and in the first place 1.
pub fn may_begin(depth: usize, count: usize, b: usize) -> bool
    ensures { result ≡ begun depth count b }
{
    let first = usize::from(b'1');
    first <= b && b <= usize::from(b'9') && (!is_first(depth, count) || b == first)
}

// Whether an image may have a second digit.
pub fn may_grow(x: usize, depth: usize, count: usize) -> bool
    ensures { result ≡ grown x depth count }
{
    1 <= x && x < 10 && !is_first(depth, count)
}
