// Images that leave: a trace of events is replayed, and after each one the link table is mended from its own rows. Images are counted
// from 1 in events, from 0 below.
#![tactic(auto)]

ghost use Rattle.std.specs.Prelude.{◌≡◌, ◌-◌, ◌*◌, ◌≤◌, length, Ok, Err};
ghost use Rattle.ground.specs.Refusals.{◌then◌};
ghost use Rattle.theory.specs.Outcomes.{LeftRows};
ghost use Rattle.theory.specs.Tables.{limit};
ghost use Rattle.tables.specs.Checks.{size_check};
ghost use Rattle.tree.specs.LocalRows.{rows_in};
ghost use Rattle.tree.specs.Readings.{outputs_room_check};
ghost use Rattle.leaving.specs.Outcome.{outcome, replay_outcome};
ghost use Rattle.leaving.specs.Replay.{replay};
ghost use Rattle.leaving.specs.Standing.{SoundRows, Stands};

use ground::Refusal;

// What the replay answers: the images that are left, the number of their rows, and the event that was refused, 0 where none was or
// the start was, with the refusal.
#[derive(Clone, Copy)]
pub struct Replayed {
    pub images: usize,
    pub rows: usize,
    pub event: usize,
    pub stop: Result<(), Refusal>,
}

// The events one after another, over n images whose rows stand in the first `count` places; a refusal ends it. The rows that are left stand
// in the same places.
fn run(n: usize, fars: &mut [u64], costs: &mut [u32], count: usize, events: &[u8]) -> Replayed
    requires { SoundRows limit n fars.old costs.old count }
    ensures { Stands (replay 1 n (rows_in fars.old costs.old count) events.now) result
        fars.new costs.new }
{
    let mut images = n;
    let mut rows = count;
    for (i, event) in events.iter().enumerate() {
        let e = usize::from(*event);
        if let Err(r) = events::check_event(images, e) {
            return Replayed {
                images,
                rows,
                event: i + 1,
                stop: Err(r),
            };
        }
        rows = mending::mend(images - 1, e - 1, fars, costs, rows);
        images -= 1;
    }
    Replayed {
        images,
        rows,
        event: 0,
        stop: Ok(()),
    }
}

// The events, and the rows that are left written into slices that have room for those of n images.
fn finish(
    n: usize,
    f: &mut [u64],
    v: &mut [u32],
    count: usize,
    events: &[u8],
    fars: &mut [u64],
    costs: &mut [u32],
) -> Replayed
    requires { SoundRows limit n f.old v.old count × (2 * n - 3 ≤ length fars.old) × (2 * n - 3 ≤ length costs.old) }
    ensures { LeftRows (outcome (Ok tt) (replay 1 n (rows_in f.old v.old count) events.now)
        fars.old costs.old) result fars.new costs.new }
{
    let r = run(n, f, v, count, events);
    tree::write_rows(f, v, r.rows, fars, costs);
    r
}

// The answer where the start is refused.
fn refuse_start(r: Refusal) -> Replayed
    ensures { result ≡ record { images = 0; rows = 0; event = 0; stop = Err r } }
{
    Replayed {
        images: 0,
        rows: 0,
        event: 0,
        stop: Err(r),
    }
}

// The start's refusals that come before a look at the entries: 1, 2, 3.
fn check_start(n: usize, t: &[u32], f: usize, v: usize) -> Result<(), Refusal>
    ensures { result ≡ (size_check n t.now then outputs_room_check (2 * n - 3) f v) }
{
    tables::check_size(n, t)?;
    tree::check_room(n, f, v)
}

// The replay of a trace: from the exact reading of the table t, one event for each byte, the number of the image that leaves. The start
// is read into local arrays, and what is left is written once, at the end, so that no place is altered that the answer does not need.
// Where an event is refused, what is left is the table before it.
pub fn replay(n: usize, t: &[u32], events: &[u8], fars: &mut [u64], costs: &mut [u32]) -> Replayed
    ensures { LeftRows (replay_outcome limit n t.now events.now fars.old costs.old) result
        fars.new costs.new }
{
    if let Err(r) = check_start(n, t, fars.len(), costs.len()) {
        return refuse_start(r);
    }
    let mut f = [0u64; 128];
    let mut v = [0u32; 128];
    match graft::exact(n, t, &mut f, &mut v) {
        Err(r) => refuse_start(r),
        Ok(count) => finish(n, &mut f, &mut v, count, events, fars, costs),
    }
}
