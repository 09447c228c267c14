// The rows of a link table that passed its checks: a path cost summed row by row, upper rows, and the climb from row to row.
#![tactic(auto)]

ghost use Rattle.std.specs.Prelude.{◌≡◌, ◌<◌, ◌≤◌, ◌*◌, ◌+◌, ◌-◌, length, get_or};
ghost use Rattle.std.proofs.lemmas.List.Edits.{sets};
ghost use Rattle.ground.specs.Buffers.{over};
ghost use Rattle.ground.specs.Sums.{when};
ghost use Rattle.theory.specs.LinkTables.{apart, path, rows_of};
ghost use Rattle.theory.specs.Routes.{uppers};
ghost use Rattle.theory.specs.Tables.{limit};
ghost use Rattle.climbing.specs.Climbs.{climb_from};

// What a row adds to the path cost of images i and j, from 0: its cost where the far side holds exactly one of them.
fn row_part(s: u64, c: u32, i: usize, j: usize) -> u32
    requires { (i < 64) × (j < 64) }
    ensures { result ≡ when (apart s i j) c }
{
    if ground::side(s, i) == ground::side(s, j) {
        0
    } else {
        c
    }
}

// The path cost of images i and j, from 0, summed row by row.
pub fn path_cost(fars: &[u64], costs: &[u32], i: usize, j: usize) -> u32
    requires { (i < 64) × (j < 64) × (length fars.now ≡ length costs.now) × (path (rows_of fars.now costs.now) i j ≤ 250 * limit) }
    ensures { result ≡ path (rows_of fars.now costs.now) i j }
{
    let mut sum: u32 = 0;
    for (s, c) in fars.iter().zip(costs) {
        sum += row_part(*s, *c, i, j);
    }
    sum
}

// The upper row of row r, which counts from 0: the number, from 1, of the first later row whose far side contains it, and 0 where there is none.
fn upper(fars: &[u64], r: usize) -> usize
    requires { r < length fars.now }
    ensures { result ≡ get_or (uppers fars.now) r 0 }
{
    let s = fars[r];
    for k in r + 1..fars.len() {
        if s & fars[k] == s {
            return k + 1;
        }
    }
    0
}

// The upper row of each row, written row by row.
pub fn put_uppers(fars: &[u64], out: &mut [u32])
    requires { (length fars.now ≤ 125) × (length fars.now ≤ length out.old) }
    ensures { out.new ≡ over (length fars.now) (uppers fars.now) out.old }
{
    for r in 0..fars.len() {
        out[r] = upper(fars, r) as u32;
    }
}

// Writes the rows from `row` up to the last, from place `at` on, and returns the place behind them: the row, and then the climb from its upper row.
pub fn climb(fars: &[u64], row: usize, out: &mut [u32], at: usize) -> usize
    requires { (0 < row) × (row ≤ length fars.now) × (length fars.now ≤ 125) × (at + (length fars.now + 1 - row) ≤ length out.old) }
    ensures { (result ≡ at + length (climb_from fars.now row))
        × (out.new ≡ sets out.old at (climb_from fars.now row)) }
{
    out[at] = row as u32;
    let above = upper(fars, row - 1);
    if above == 0 {
        at + 1
    } else {
        climb(fars, above, out, at + 1)
    }
}
