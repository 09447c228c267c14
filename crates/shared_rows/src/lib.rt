// The rows that two trees share, by one merge.
#![tactic(auto)]

ghost use Rattle.std.specs.Prelude.{◌≡◌, ◌<◌, ◌≤◌, ◌^◌, length, take};
ghost use Rattle.ground.specs.Ascending.{Between};
ghost use Rattle.shared_rows.specs.Merge.{Met, RowKept, met_cost, one_same};

// 1 where x and y are the same far side, else 0.
fn one_same(x: u64, y: u64) -> usize
    ensures { result ≡ one_same x y }
{
    if x == y { 1 } else { 0 }
}

// The smaller cost where x and y are the same far side, else c as it is.
fn met_cost(x: u64, y: u64, c: u32, e: u32) -> u32
    ensures { result ≡ met_cost x y c e }
{
    if x == y { c.min(e) } else { c }
}

// Row i stored at the place `at`, with the smaller cost where the other tree has its far side, y, at the cost e; the number of rows kept
// goes on if it has.
fn keep_row(i: usize, y: u64, e: u32, at: usize, fars: &mut [u64], costs: &mut [u32]) -> usize
    requires { (at ≤ i) × (i < length fars.old) × (i < length costs.old) }
    ensures { RowKept i y e at fars.old costs.old result fars.new costs.new }
{
    let x = fars[i];
    costs[at] = met_cost(x, y, costs[i], e);
    fars[at] = x;
    at + one_same(x, y)
}

// Of the first `count` rows those that the tree f, v has too, each with the smaller cost, in the first places; how many they are. One
// merge: of the two rows in front the one with the lesser far side is left behind, both where they are the same. No row is stored behind
// the one that is read.
pub fn meet(count: usize, fars: &mut [u64], costs: &mut [u32], f: &[u64], v: &[u32]) -> usize
    requires { Between 1 (take count fars.old) (2 ^ 64) × Between 1 f.now (2 ^ 64) × (length v.now ≡ length f.now)
        × (count ≤ length fars.old) × (count ≤ length costs.old) }
    ensures { Met count fars.old costs.old f.now v.now result fars.new costs.new }
{
    let mut at = 0;
    let mut i = 0;
    let mut j = 0;
    // A `while`: each list goes on by itself.
    while i < count && j < f.len() {
        let x = fars[i];
        let y = f[j];
        at = keep_row(i, y, v[j], at, fars, costs);
        i += ground::advance(x, y);
        j += ground::advance(y, x);
    }
    at
}
