// The second engine of the exact reading: the images are taken in the order from 1 with last n, each entry is checked by the
// recognition formula of document 001, and one image after another is grafted. It answers as `tree::exact` does on every argument, in
// a time that grows with n² where the table is accepted. Of the first engine it has the checks before 7, the search for the four
// images once the formula has failed, and the copy of the rows.
#![tactic(auto)]

ghost use Rattle.std.specs.Prelude.{true, ◌≡◌, ◌-◌, ◌*◌, ◌≤◌, length};
ghost use Rattle.ground.specs.Refusals.{places_if};
ghost use Rattle.theory.specs.Outcomes.{LeftRows};
ghost use Rattle.theory.specs.Tables.{limit};
ghost use Rattle.tables.specs.Entries.{costs_in};
ghost use Rattle.wiring.specs.Check.{wiring_check};
ghost use Rattle.tree.specs.Exact.{exact_rows};
ghost use Rattle.tree.specs.Readings.{exact_outcome, outcome};
ghost use Rattle.tree.specs.Writing.{RowsWritten};
ghost use Rattle.recognition.specs.Recognition.{all_graft, placed};
ghost use Rattle.recognition.specs.Seats.{seat, Seated};

use ground::Refusal;
use tables::Costs;

// Grafts all images in the order o, in which each can be, and writes the rows into slices that have room for them; their number.
#[tactic(auto, using(crate::specs::Laws::Answer::count_few, crate::specs::Laws::Answer::count_fits))]
fn write_grafted(t: &Costs<'_>, o: &[u32], fars: &mut [u64], costs: &mut [u32]) -> usize
    requires { Seated t.now.n o.now × (all_graft (placed (costs_in t.now) (seat o.now)) (t.now.n - 1) ≡ true)
        × (2 * t.now.n - 3 ≤ length fars.old) × (2 * t.now.n - 3 ≤ length costs.old) }
    ensures { RowsWritten (exact_rows limit t.now.n t.now.entries.now) result fars.old costs.old fars.new
        costs.new }
{
    let mut f = [0u64; 192];
    let mut v = [0u32; 192];
    let count = grafting::graft_all(t, o, &mut f, &mut v);
    tree::write_rows(&f, &v, count, fars, costs);
    count
}

// The refusal of a table that no wiring gives, with the images as the first engine finds them.
fn refuse(t: &Costs<'_>) -> Result<usize, Refusal>
    ensures { result ≡ places_if (wiring_check (costs_in t.now) t.now.n) 0 }
{
    wiring::check_wiring(t)?;
    Ok(0)
}

// The exact reading of a cost table, written into slices that have room for it, or refusal 7.
fn read(t: &Costs<'_>, fars: &mut [u64], costs: &mut [u32]) -> Result<usize, Refusal>
    requires { (2 * t.now.n - 3 ≤ length fars.old) × (2 * t.now.n - 3 ≤ length costs.old) }
    ensures { LeftRows (outcome (wiring_check (costs_in t.now) t.now.n) (exact_rows limit t.now.n t.now.entries.now) fars.old
        costs.old) result fars.new costs.new }
{
    let mut o = [0u32; 64];
    ordering::write_order(t, 0, t.n - 1, &mut o);
    if recognition::can_graft_all(t, &o) {
        return Ok(write_grafted(t, &o, fars, costs));
    }
    refuse(t)
}

// The exact reading by the second engine: the one tree that accounts for every entry, or the first four images that show that there
// is none.
#[tactic(auto, using(crate::specs::Laws::Answer::call_laws))]
pub fn exact(n: usize, t: &[u32], fars: &mut [u64], costs: &mut [u32]) -> Result<usize, Refusal>
    ensures { LeftRows (exact_outcome limit n t.now fars.old costs.old) result fars.new costs.new }
{
    tree::check_measured(n, t, fars.len(), costs.len())?;
    read(&Costs { n, entries: t }, fars, costs)
}

// Which engine reads: the one that tests the fours of images, or the one that grafts.
#[derive(Clone, Copy)]
pub enum Engine {
    Fours,
    Grafts,
}

// The exact reading by either engine.
pub fn exact_by(
    engine: Engine,
    n: usize,
    t: &[u32],
    fars: &mut [u64],
    costs: &mut [u32],
) -> Result<usize, Refusal>
    ensures { LeftRows (exact_outcome limit n t.now fars.old costs.old) result fars.new costs.new }
{
    match engine {
        Engine::Fours => tree::exact(n, t, fars, costs),
        Engine::Grafts => exact(n, t, fars, costs),
    }
}
