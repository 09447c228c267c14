// Writing a stored link table. The functions below the public calls take the form as an argument. Images and rows are counted from 0.
#![tactic(auto)]

ghost use Rattle.std.specs.Prelude.{◌≡◌, ◌*◌, ◌≤◌, get_or, length};
ghost use Rattle.ground.specs.Buffers.{front};
ghost use Rattle.ground.specs.First.{first};
ghost use Rattle.ground.specs.Outcomes.{Left};
ghost use Rattle.ground.specs.Refusals.{◌then◌};
ghost use Rattle.theory.specs.Tables.{limit};
ghost use Rattle.links.specs.Checks.{row_checks, size_checks};
ghost use Rattle.links.specs.Links.{Links};
ghost use Rattle.bits.specs.Forms.{field_bits};
ghost use Rattle.packer.specs.Gathering.{Put, Room};
ghost use Rattle.link_forms.specs.Form.{link_bytes, link_form, link_used, row_fields, row_width, rows_to};
ghost use Rattle.link_forms.specs.Sizes.{Small};
ghost use Rattle.link_writer.specs.Writing.{RoomFor, fit_checks, large, store_checks, store_outcome, write_outcome};

use bits::{Edition, Form};
use ground::Refusal;
use packer::Gathered;

// One row behind what was put: images n down to 2 are half the far side, and the cost stands behind them.
fn put_row(g: Gathered, w: usize, n: usize, s: u64, c: u32, out: &mut [u8]) -> Gathered
    requires { (1 ≤ n) × (n ≤ 64) × (w ≤ 32) × Room (length out.old) g (row_width w n) }
    ensures { Put (field_bits (row_fields w n s c)) out.old out.new g result }
{
    let sided = packer::put_wide(out, g, n - 1, s / 2);
    packer::put(out, sided, w, c as u64)
}

// All rows, one behind the other, behind what was put.
fn put_rows(
    g: Gathered,
    w: usize,
    n: usize,
    fars: &[u64],
    costs: &[u32],
    out: &mut [u8],
) -> Gathered
    requires { (1 ≤ n) × (n ≤ 64) × (w ≤ 32) × Room (length out.old) g (row_width w n * length fars.now)
        × (length costs.now ≡ length fars.now) }
    ensures { Put (field_bits (rows_to w n (λ k. get_or fars.now k 0) (λ k. get_or costs.now k 0) (length fars.now)))
        out.old out.new g result }
{
    let mut gathered = g;
    for k in 0..fars.len() {
        gathered = put_row(gathered, w, n, fars[k], costs[k], out);
    }
    gathered
}

// The whole form at the front of the lent bytes, the fill bits last; the answer is the bytes used.
fn put_form(form: Form, n: usize, fars: &[u64], costs: &[u32], out: &mut [u8]) -> usize
    requires { RoomFor form n (length fars.now) (length out.old) × (length costs.now ≡ length fars.now) }
    ensures { (result ≡ link_used form n (length fars.now))
        × (out.new ≡ front (link_bytes form n fars.now costs.now) out.old) }
{
    let begun = packer::start(out, form, n);
    let counted = packer::put(out, begun, 7, fars.len() as u64);
    let rowed = put_rows(counted, form.width, n, fars, costs, out);
    packer::finish(out, rowed)
}

// The bytes that so many rows over n images use.
pub fn links_used(edition: Edition, n: usize, count: usize) -> usize
    requires { Small (link_form edition) n count }
    ensures { result ≡ link_used (link_form edition) n count }
{
    (link_forms::row_at(link_forms::form_of(edition), n, count) + 7) / 8
}

// The stored form of a table whose sizes fit, at the front of bytes that have room for it; the answer is the bytes used. Nothing is checked.
pub fn put_links(edition: Edition, n: usize, fars: &[u64], costs: &[u32], out: &mut [u8]) -> usize
    requires { RoomFor (link_form edition) n (length fars.now) (length out.old) × (length costs.now ≡ length fars.now) }
    ensures { (result ≡ link_used (link_form edition) n (length fars.now))
        × (out.new ≡ front (link_bytes (link_form edition) n fars.now costs.now) out.old) }
{
    put_form(link_forms::form_of(edition), n, fars, costs, out)
}

// The first row with a cost above twice the limit, from 0, else the number of rows.
fn first_large(most: u32, costs: &[u32]) -> usize
    requires { most ≤ limit }
    ensures { result ≡ first (large most costs.now) (length costs.now) }
{
    for k in 0..costs.len() {
        if 2 * most < costs[k] {
            return k;
        }
    }
    costs.len()
}

// Refusals 17 and 3 of rows as many as counted.
fn check_store(
    form: Form,
    n: usize,
    fars: &[u64],
    costs: &[u32],
    room: usize,
) -> Result<(), Refusal>
    requires { Small form n (length fars.now) × (form.limit ≤ limit) × (length costs.now ≡ length fars.now) }
    ensures { result ≡ store_checks form n fars.now costs.now room }
{
    let row = first_large(form.limit, costs);
    ground::refuse_if(row < costs.len(), 17, row + 1, 0)?;
    let end = link_forms::row_at(form, n, fars.len());
    ground::refuse_if(room < (end + 7) / 8, 3, 0, 0)
}

// Refusals 12, 13, 17 and 3, for those who counted the rows themselves.
pub fn check_links(
    edition: Edition,
    n: usize,
    fars: &[u64],
    costs: &[u32],
    room: usize,
) -> Result<(), Refusal>
    requires { Small (link_form edition) n (length fars.now) × (length costs.now ≡ length fars.now) }
    ensures { result ≡ fit_checks (link_form edition) n fars.now costs.now room }
{
    links::check_rows(theory::LIMIT, n, fars, costs)?;
    check_store(link_forms::form_of(edition), n, fars, costs, room)
}

// The stored form of a link table that is known to be one, for those who checked it themselves.
pub fn store_links(
    edition: Edition,
    n: usize,
    fars: &[u64],
    costs: &[u32],
    out: &mut [u8],
) -> Result<usize, Refusal>
    requires { Links limit n (length fars.now) fars.now costs.now }
    ensures { Left (store_outcome (link_form edition) n fars.now costs.now out.old) result out.new }
{
    check_store(link_forms::form_of(edition), n, fars, costs, out.len())?;
    Ok(put_links(edition, n, fars, costs, out))
}

// Refusals 1, 10, 2, 12 and 13.
fn check_table(n: usize, count: usize, fars: &[u64], costs: &[u32]) -> Result<(), Refusal>
    ensures { result ≡ (size_checks n count fars.now costs.now then row_checks limit n fars.now costs.now) }
{
    links::check_rows_size(n, count, fars, costs)?;
    links::check_rows(theory::LIMIT, n, fars, costs)
}

// A link table at the front of the lent bytes, in the form that is asked for; the answer is the bytes used. No other byte is written.
pub fn write_links(
    edition: Edition,
    n: usize,
    count: usize,
    fars: &[u64],
    costs: &[u32],
    out: &mut [u8],
) -> Result<usize, Refusal>
    ensures { Left (write_outcome (link_form edition) n count fars.now costs.now out.old) result out.new }
{
    check_table(n, count, fars, costs)?;
    store_links(edition, n, fars, costs, out)
}
