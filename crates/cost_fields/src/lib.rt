// The entries of a cost table put as fields of bits, row by row. Images are counted from 0.
#![tactic(auto)]

ghost use Rattle.std.specs.Prelude.{◌≡◌, ◌*◌, ◌+◌, ◌-◌, ◌<◌, ◌≤◌, length};
ghost use Rattle.ground.specs.Buffers.{front};
ghost use Rattle.tables.specs.Entries.{costs_in};
ghost use Rattle.bits.specs.Forms.{fields_of, field_bits};
ghost use Rattle.packer.specs.Gathering.{Put, Room};
ghost use Rattle.cost_forms.specs.Entries.{entries, entry_count, row_entries};
ghost use Rattle.cost_forms.specs.Form.{cost_bytes, cost_used};
ghost use Rattle.cost_forms.specs.Sizes.{Small};

use bits::Form;
use packer::Gathered;
use tables::Costs;

// The entries of row i right of the diagonal, behind what was put.
fn put_row(g: Gathered, w: usize, t: &Costs<'_>, i: usize, out: &mut [u8]) -> Gathered
    requires { (i < t.now.n) × (w ≤ 32) × Room (length out.old) g (w * (t.now.n - (i + 1))) }
    ensures { Put (field_bits (fields_of w (row_entries (costs_in t.now) t.now.n i))) out.old out.new g result }
{
    let mut gathered = g;
    for k in 0..t.n - (i + 1) {
        gathered = packer::put(out, gathered, w, t.entry(i, i + 1 + k) as u64);
    }
    gathered
}

// All entries, row by row, behind what was put.
#[tactic(auto, using(crate::specs::Laws::Putting::rows_put_room))]
fn put_entries(g: Gathered, w: usize, t: &Costs<'_>, out: &mut [u8]) -> Gathered
    requires { (w ≤ 32) × Room (length out.old) g (w * entry_count t.now.n) }
    ensures { Put (field_bits (fields_of w (entries (costs_in t.now) t.now.n))) out.old out.new g result }
{
    let mut gathered = g;
    for i in 0..t.n {
        gathered = put_row(gathered, w, t, i, out);
    }
    gathered
}

// The whole form at the front of the lent bytes, the fill bits last; the answer is the bytes used.
#[tactic(auto, using(crate::specs::Laws::Putting::entries_room, crate::specs::Laws::Putting::fill_room))]
pub fn put_form(form: Form, t: &Costs<'_>, out: &mut [u8]) -> usize
    requires { Small form t.now.n × (cost_used form t.now.n ≤ length out.old) }
    ensures { (result ≡ cost_used form t.now.n) × (out.new ≡ front (cost_bytes form t.now.n (costs_in t.now)) out.old) }
{
    let begun = packer::start(out, form, t.n);
    let entered = put_entries(begun, form.width, t, out);
    packer::finish(out, entered)
}
