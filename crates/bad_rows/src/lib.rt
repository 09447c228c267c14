// The rows of a link table that are bad: the first of them. Images and rows are counted from 0.
#![tactic(auto)]

ghost use Rattle.std.specs.Prelude.{◌≡◌, ◌<◌, ◌≤◌, length};
ghost use Rattle.ground.specs.First.{first};
ghost use Rattle.bad_rows.specs.BadRows.{crosses, bad_side, bad_cost, row_before, first_crossed, bad_row};

// Whether two far sides cross: what both hold is not all of either, and not nothing.
fn is_crossing(s: u64, r: u64) -> bool
    ensures { result ≡ crosses s r }
{
    let both = s & r;
    both != s && both != r && both != 0
}

// Whether s is no far side behind the far side `before`: 0 or not above it, or with image 0, or with one beyond n. Of 64 images none is
// beyond, and nothing is shifted by 64.
fn is_bad_side(n: usize, before: u64, s: u64) -> bool
    requires { n ≤ 64 }
    ensures { result ≡ bad_side n before s }
{
    if s <= before || s % 2 == 1 {
        return true;
    }
    n < 64 && 0 < s >> n
}

// Whether c is no doubled cost of the far side s: above twice the limit, or 0 in an inner row. Twice a limit may need more than 32 bits.
pub fn is_bad_cost(most: u32, n: usize, s: u64, c: u32) -> bool
    ensures { result ≡ bad_cost most n s c }
{
    2 * u64::from(most) < u64::from(c) || (theory::is_inner(n, s) && c == 0)
}

// The far side of the row before row k, 0 before the first.
fn row_before(fars: &[u64], k: usize) -> u64
    requires { k < length fars.now }
    ensures { result ≡ row_before fars.now k }
{
    if k == 0 {
        return 0;
    }
    fars[k - 1]
}

// The first row that row k crosses, of those before it, else k.
fn first_crossed(fars: &[u64], k: usize) -> usize
    requires { k < length fars.now }
    ensures { result ≡ first_crossed fars.now k }
{
    for j in 0..k {
        if is_crossing(fars[j], fars[k]) {
            return j;
        }
    }
    k
}

// Whether row k is bad, seen with the rows before it.
#[tactic(auto, unfolding(crate::specs::BadRows::bad_row))]
fn is_bad_row(most: u32, n: usize, fars: &[u64], costs: &[u32], k: usize) -> bool
    requires { (n ≤ 64) × (length costs.now ≡ length fars.now) × (k < length fars.now) }
    ensures { result ≡ bad_row most n fars.now costs.now k }
{
    let before = row_before(fars, k);
    is_bad_side(n, before, fars[k])
        || is_bad_cost(most, n, fars[k], costs[k])
        || first_crossed(fars, k) < k
}

// The first bad row, from 0, else the number of rows.
pub fn first_bad_row(most: u32, n: usize, fars: &[u64], costs: &[u32]) -> usize
    requires { (n ≤ 64) × (length costs.now ≡ length fars.now) }
    ensures { result ≡ first (bad_row most n fars.now costs.now) (length fars.now) }
{
    for k in 0..fars.len() {
        if is_bad_row(most, n, fars, costs, k) {
            return k;
        }
    }
    fars.len()
}
