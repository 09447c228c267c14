// The two readings of a cost table as a tree. Images are counted from 0.
#![tactic(auto)]

ghost use Rattle.std.specs.Prelude.{◌≡◌, ◌-◌, ◌*◌, ◌≤◌, length};
ghost use Rattle.ground.specs.Buffers.{over};
ghost use Rattle.theory.specs.Outcomes.{LeftRows};
ghost use Rattle.theory.specs.Readings.{measured};
ghost use Rattle.theory.specs.Tables.{limit};
ghost use Rattle.tables.specs.Entries.{costs_in};
ghost use Rattle.growing.specs.Held.{RowsHeld};
ghost use Rattle.tree.specs.Readings.{short, outputs_room_check, measured_check, exact_check, measured_outcome, exact_outcome};
ghost use Rattle.tree.specs.Writing.{RowsWritten};

use ground::Refusal;
use tables::Costs;

// The first `count` rows, written row by row into the two lent slices.
#[tactic(auto, using(crate::proofs::Laws::Writing::place_by_place))]
pub fn write_rows(f: &[u64], v: &[u32], count: usize, fars: &mut [u64], costs: &mut [u32])
    requires { (count ≤ length f.now) × (count ≤ length v.now) × (count ≤ length fars.old) × (count ≤ length costs.old) }
    ensures { (fars.new ≡ over count f.now fars.old)
        × (costs.new ≡ over count v.now costs.old) }
{
    for i in 0..count {
        fars[i] = f[i];
        costs[i] = v[i];
    }
}

// The measured reading: from no row over one image, one image more at a time; the number of its rows.
fn measured_rows(t: &Costs<'_>, f: &mut [u64], v: &mut [u32]) -> usize
    requires { (length f.old ≡ 128) × (length v.old ≡ 128) }
    ensures { RowsHeld limit (costs_in t.now) t.now.n f.new v.new result }
{
    let mut fars = [0u64; 128];
    let mut costs = [0u32; 128];
    let mut steps = [0u32; 384];
    let mut best = [0u32; 192];
    let mut count = 0;
    for k in 1..t.n {
        count = growing::grow(
            t, k, f, v, count, &mut fars, &mut costs, &mut steps, &mut best,
        );
        write_rows(&fars, &costs, count, f, v);
    }
    count
}

// The measured reading of a cost table, written into slices that have room for it; the number of its rows.
fn write_reading(t: &Costs<'_>, fars: &mut [u64], costs: &mut [u32]) -> usize
    requires { (2 * t.now.n - 3 ≤ length fars.old) × (2 * t.now.n - 3 ≤ length costs.old) }
    ensures { RowsWritten (measured limit (costs_in t.now) t.now.n) result fars.old costs.old fars.new
        costs.new }
{
    let mut f = [0u64; 128];
    let mut v = [0u32; 128];
    let count = measured_rows(t, &mut f, &mut v);
    write_rows(&f, &v, count, fars, costs);
    count
}

// Whether one of two outputs is shorter than what is needed.
fn is_short(need: usize, f: usize, v: usize) -> bool
    ensures { result ≡ short need f v }
{
    f < need || v < need
}

// Refusal 3.
pub fn check_room(n: usize, f: usize, v: usize) -> Result<(), Refusal>
    requires { (3 ≤ n) × (n ≤ 64) }
    ensures { result ≡ outputs_room_check (2 * n - 3) f v }
{
    ground::refuse_if(is_short(2 * n - 3, f, v), 3, 0, 0)
}

// The checks of the measured reading, in their order: 1, 2, 3, 4, 5, 6, 20.
pub fn check_measured(n: usize, t: &[u32], f: usize, v: usize) -> Result<(), Refusal>
    ensures { result ≡ measured_check limit n t.now f v }
{
    tables::check_size(n, t)?;
    check_room(n, f, v)?;
    tables::check_costs(theory::LIMIT, n, t)
}

// The checks of the exact reading: the same, and 7.
fn check_exact(n: usize, t: &[u32], f: usize, v: usize) -> Result<(), Refusal>
    ensures { result ≡ exact_check limit n t.now f v }
{
    check_measured(n, t, f, v)?;
    wiring::check_wiring(&Costs { n, entries: t })
}

// The measured reading: own links, and an inner link only where all choices of images support it.
pub fn measured(n: usize, t: &[u32], fars: &mut [u64], costs: &mut [u32]) -> Result<usize, Refusal>
    ensures { LeftRows (measured_outcome limit n t.now fars.old costs.old) result fars.new costs.new }
{
    check_measured(n, t, fars.len(), costs.len())?;
    Ok(write_reading(&Costs { n, entries: t }, fars, costs))
}

// The exact reading: the one tree that accounts for every entry, or the first four images that show that there is none.
pub fn exact(n: usize, t: &[u32], fars: &mut [u64], costs: &mut [u32]) -> Result<usize, Refusal>
    ensures { LeftRows (exact_outcome limit n t.now fars.old costs.old) result fars.new costs.new }
{
    check_exact(n, t, fars.len(), costs.len())?;
    Ok(write_reading(&Costs { n, entries: t }, fars, costs))
}
