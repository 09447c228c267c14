// Link tables: the checks that one passes or is refused by, and the row of an own link. Images and rows are counted from 0 but in refusals.
#![tactic(auto)]

ghost use Rattle.std.specs.Prelude.{◌≡◌, ◌<◌, ◌≤◌, length};
ghost use Rattle.ground.specs.First.{first};
ghost use Rattle.ground.specs.Members.{place_of};
ghost use Rattle.theory.specs.FarSides.{own};
ghost use Rattle.bad_rows.specs.BadRows.{missing};
ghost use Rattle.links.specs.Checks.{count_checks, length_checks, size_checks, row_checks};

use ground::Refusal;

// The far side of the own link of image i, from 0: i alone, and for image 0 all the others, which are twice all below 2^(n-1).
pub fn own_link(n: usize, i: usize) -> u64
    requires { (3 ≤ n) × (n ≤ 64) × (i < n) }
    ensures { result ≡ own n i }
{
    if i == 0 {
        return ((1u64 << (n - 1)) - 1) * 2;
    }
    1u64 << i
}

// The number of the row with the far side s, from 1, and 0 where there is none.
pub fn place_of(fars: &[u64], s: u64) -> usize
    ensures { result ≡ place_of 1 s fars.now }
{
    for (k, side) in fars.iter().enumerate() {
        if s == *side {
            return k + 1;
        }
    }
    0
}

// Whether the own link of image i is missing.
fn is_missing(n: usize, fars: &[u64], i: usize) -> bool
    requires { (3 ≤ n) × (n ≤ 64) × (i < n) }
    ensures { result ≡ missing n fars.now i }
{
    place_of(fars, own_link(n, i)) == 0
}

// The first image whose own link is missing, from 0, else n.
fn first_missing(n: usize, fars: &[u64]) -> usize
    requires { (3 ≤ n) × (n ≤ 64) }
    ensures { result ≡ first (missing n fars.now) n }
{
    for i in 0..n {
        if is_missing(n, fars, i) {
            return i;
        }
    }
    n
}

// 1, 10: the number of images, then the row count.
pub fn check_count(n: usize, count: usize) -> Result<(), Refusal>
    ensures { result ≡ count_checks n count }
{
    theory::check_images(n)?;
    ground::refuse_if(ground::is_outside(n, 2 * n - 3, count), 10, count, 0)
}

// 2: both slices are exactly as long as the row count.
fn check_lengths(count: usize, fars: &[u64], costs: &[u32]) -> Result<(), Refusal>
    ensures { result ≡ length_checks count fars.now costs.now }
{
    ground::refuse_if(fars.len() != count, 2, 0, 0)?;
    ground::refuse_if(costs.len() != count, 2, 0, 0)
}

// 1, 10, 2: what is asked of a link table before its rows are looked at.
pub fn check_rows_size(n: usize, count: usize, fars: &[u64], costs: &[u32]) -> Result<(), Refusal>
    ensures { result ≡ size_checks n count fars.now costs.now }
{
    check_count(n, count)?;
    check_lengths(count, fars, costs)
}

// 12, 13: the lowest bad row, then the lowest image without its own link. The limit is an argument: what was stored under another limit is read under it.
pub fn check_rows(most: u32, n: usize, fars: &[u64], costs: &[u32]) -> Result<(), Refusal>
    requires { (3 ≤ n) × (n ≤ 64) × (length fars.now ≤ 125) × (length costs.now ≡ length fars.now) }
    ensures { result ≡ row_checks most n fars.now costs.now }
{
    let row = bad_rows::first_bad_row(most, n, fars, costs);
    ground::refuse_if(row < fars.len(), 12, row + 1, 0)?;
    let image = first_missing(n, fars);
    ground::refuse_if(image < n, 13, image + 1, 0)
}
