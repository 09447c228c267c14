// Stored tables written anew in the form that is asked for. Each conversion reads the table in front of the lent bytes, in either form, and
// ignores what follows it.
#![tactic(auto)]

ghost use Rattle.std.specs.Prelude.{◌≡◌, ◌*◌, ◌+◌, ◌≤◌, length, Err};
ghost use Rattle.ground.specs.Buffers.{front};
ghost use Rattle.ground.specs.Outcomes.{Left};
ghost use Rattle.ground.specs.Refusals.{refusal, room_check, ◌then◌};
ghost use Rattle.theory.specs.Tables.{cost};
ghost use Rattle.bits.specs.Bits.{FieldWithin};
ghost use Rattle.bits.specs.Forms.{field_bits, fields_of};
ghost use Rattle.bits.specs.Listed.{listed};
ghost use Rattle.packer.specs.Gathering.{Put, Room};
ghost use Rattle.cost_forms.specs.Entries.{entry_count};
ghost use Rattle.cost_forms.specs.Form.{cost_bytes, cost_used};
ghost use Rattle.cost_forms.specs.Said.{entry_of, stored_table};
ghost use Rattle.stored_costs.specs.Reading.{table_checks};
ghost use Rattle.cost_forms.specs.Sizes.{Held, Small};
ghost use Rattle.cost_writer.specs.Writing.{stored_if};
ghost use Rattle.conversion.specs.Costs.{costs_converted, entry_checks};
ghost use Rattle.conversion.specs.Links.{links_converted};

use bits::{Edition, Form};
use ground::Refusal;
use packer::Gathered;

// What is refused in a table that a lower limit did not let pass, at the places of `above`: what the form itself refuses, and else 17 there.
fn check_again(form: Form, above: Refusal, bytes: &[u8]) -> Result<(), Refusal>
    requires { (form.head ≤ 7) × (form.width ≤ 32) }
    ensures { result ≡ (table_checks form bytes.now then Err (refusal 17 above.a above.b 0 0)) }
{
    stored_costs::check_stored(form, bytes, 4096)?;
    Err(Refusal {
        number: 17,
        a: above.a,
        b: above.b,
        c: 0,
        d: 0,
    })
}

// Refusals 9, 1, 9, 11, 4, 20 and 17 of the table in front of the bytes. The lower of the two limits is asked first: where no entry is above it,
// neither 4 nor 17 is left, and every entry was looked at once.
#[tactic(auto, using(crate::specs::Laws::Limits::passed_stricter, crate::specs::Laws::Limits::refused_stricter))]
fn check_costs(form: Form, most: u32, bytes: &[u8]) -> Result<(), Refusal>
    requires { (form.head ≤ 7) × (form.width ≤ 32) }
    ensures { result ≡ entry_checks form most bytes.now }
{
    let stricter = Form {
        limit: form.limit.min(most),
        ..form
    };
    let checked = stored_costs::check_stored(stricter, bytes, 4096);
    checked.or_else(|above| check_again(form, above, bytes))
}

// Entry k of a table in a form.
#[tactic(auto, unfolding(cost_forms::specs::Said::entry_of, bits::specs::Forms::field_value))]
fn entry(form: Form, bytes: &[u8], k: usize) -> u64
    requires { FieldWithin (length bytes.now) (form.head + 7 + form.width * k) form.width }
    ensures { result ≡ entry_of form bytes.now k }
{
    bits::get(bytes, form.head + 7 + form.width * k, form.width)
}

// The entries of a table of n images, from one form into the width of another, behind what was put.
fn put_entries(
    g: Gathered,
    from: Form,
    w: usize,
    n: usize,
    bytes: &[u8],
    out: &mut [u8],
) -> Gathered
    requires { Held from n (length bytes.now) × (w ≤ 32) × Room (length out.old) g (w * entry_count n) }
    ensures { Put (field_bits (fields_of w (listed (entry_of from bytes.now) (entry_count n)))) out.old out.new g result }
{
    let mut gathered = g;
    for k in 0..cost_forms::entry_count(n) {
        gathered = packer::put(out, gathered, w, entry(from, bytes, k));
    }
    gathered
}

// The table from one form into another, at the front of bytes that have room for it; the answer is the bytes used.
#[tactic(auto, using(cost_fields::specs::Laws::Putting::entries_room))]
fn put_form(from: Form, to: Form, n: usize, bytes: &[u8], out: &mut [u8]) -> usize
    requires { Held from n (length bytes.now) × Small to n × (cost_used to n ≤ length out.old) }
    ensures { (result ≡ cost_used to n)
        × (out.new ≡ front (cost_bytes to n (cost (stored_table from n bytes.now) n)) out.old) }
{
    let begun = packer::start(out, to, n);
    let entered = put_entries(begun, from, to.width, n, bytes, out);
    packer::finish(out, entered)
}

// The same, or refusal 3.
#[tactic(auto, using(cost_forms::specs::Laws::Sizes::end_le))]
fn store_costs(
    from: Form,
    to: Form,
    n: usize,
    bytes: &[u8],
    out: &mut [u8],
) -> Result<usize, Refusal>
    requires { Held from n (length bytes.now) × Small to n }
    ensures { Left (stored_if (room_check (cost_used to n) (length out.old)) to n (stored_table from n bytes.now)
        out.old) result out.new }
{
    let end = cost_forms::row_at(to, n, n);
    ground::refuse_if(out.len() < (end + 7) / 8, 3, 0, 0)?;
    Ok(put_form(from, to, n, bytes, out))
}

// A stored cost table in the form that is asked for, at the front of the lent bytes; the answer is the bytes used. Each entry goes from its
// field into the new one: no table is laid out, so that few images take little time.
pub fn convert_costs(edition: Edition, bytes: &[u8], out: &mut [u8]) -> Result<usize, Refusal>
    ensures { Left (costs_converted edition bytes.now out.old) result out.new }
{
    let from = cost_forms::form_at(bytes, 0);
    let to = cost_forms::form_of(edition);
    check_costs(from, to.limit, bytes)?;
    store_costs(from, to, cost_forms::images(from, bytes), bytes, out)
}

// A stored link table in the form that is asked for, which is at most 125 rows. There is room for them all, so that refusal 3 is for the lent
// bytes alone.
pub fn convert_links(edition: Edition, bytes: &[u8], out: &mut [u8]) -> Result<usize, Refusal>
    ensures { Left (links_converted edition bytes.now out.old) result out.new }
{
    let mut fars = [0u64; 128];
    let mut costs = [0u32; 128];
    let read = stored_links::read_links(bytes, 0, &mut fars, &mut costs)?;
    let count = read.count;
    link_writer::store_links(edition, read.n, &fars[..count], &costs[..count], out)
}
