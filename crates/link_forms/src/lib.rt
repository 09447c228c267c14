// The forms of the stored link table: where its rows stand, and the places of a table filled from either. Images and rows are counted from 0.
#![tactic(auto)]

ghost use Rattle.std.specs.Prelude.{◌≡◌, ◌*◌, ◌+◌, ◌-◌, ◌≤◌, length};
ghost use Rattle.ground.specs.Buffers.{front};
ghost use Rattle.bits.specs.Bits.{bits, part, value_of};
ghost use Rattle.bits.specs.Forms.{bytes_for};
ghost use Rattle.link_forms.specs.Form.{link_form, link_form_at, row_at};
ghost use Rattle.link_forms.specs.Said.{costs_of, count_of, fars_of, images_of};
ghost use Rattle.link_forms.specs.Sizes.{Held, Small, last_row_end};

use bits::{Edition, Form};

// Both forms. In the old one nothing stands in front of n and a doubled cost has 21 bits; in the new one the mark does, and it has 24.
pub fn form_of(edition: Edition) -> Form
    ensures { result ≡ link_form edition }
{
    match edition {
        Edition::Old => Form {
            head: 0,
            mark: 0,
            width: 21,
            limit: theory::OLD_LIMIT,
        },
        Edition::New => Form {
            head: 7,
            mark: bits::NEW_MARK,
            width: 24,
            limit: theory::LIMIT,
        },
    }
}

// The form of the table at the position, which its first seven bits tell.
pub fn form_at(bytes: &[u8], position: usize) -> Form
    ensures { result ≡ link_form_at bytes.now position }
{
    form_of(bits::edition_at(bytes, position))
}

// The bit at which row k begins, which is where k rows end.
pub fn row_at(form: Form, n: usize, k: usize) -> usize
    requires { Small form n k }
    ensures { result ≡ row_at form n k }
{
    form.head + 14 + (n - 1 + form.width) * k
}

// The number n that the bytes say.
#[tactic(auto, unfolding(crate::specs::Said::images_of))]
pub fn images(form: Form, bytes: &[u8]) -> usize
    requires { (form.head ≤ 7) × (bytes_for (form.head + 14) ≤ length bytes.now) }
    ensures { result ≡ images_of form bytes.now }
{
    bits::get(bytes, form.head, 7) as usize
}

// The row count that the bytes say.
#[tactic(auto, unfolding(crate::specs::Said::count_of))]
pub fn row_count(form: Form, bytes: &[u8]) -> usize
    requires { (form.head ≤ 7) × (bytes_for (form.head + 14) ≤ length bytes.now) }
    ensures { result ≡ count_of form bytes.now }
{
    bits::get(bytes, form.head + 7, 7) as usize
}

// The far side of the row that begins at the position: its bits are images n down to 2, so the number is half the far side.
fn far_at(bytes: &[u8], position: usize, n: usize) -> u64
    requires { (1 ≤ n) × (n ≤ 64) × (position + (n - 1) ≤ 8 * length bytes.now) × (position ≤ last_row_end) }
    ensures { result ≡ 2 * value_of (part (bits bytes.now) position (n - 1)) }
{
    2 * bits::get(bytes, position, n - 1)
}

// The doubled cost at the position.
#[tactic(auto, using(bits::specs::Laws::Turns::value_part_lt))]
fn cost_at(bytes: &[u8], position: usize, w: usize) -> u32
    requires { (w ≤ 32) × (position + w ≤ 8 * length bytes.now) × (position ≤ last_row_end) }
    ensures { result ≡ value_of (part (bits bytes.now) position w) }
{
    bits::get(bytes, position, w) as u32
}

// The rows that the bytes say, into the front of both slices.
pub fn fill(form: Form, n: usize, count: usize, bytes: &[u8], fars: &mut [u64], costs: &mut [u32])
    requires { Held form n count (length bytes.now) × (count ≤ length fars.old) × (count ≤ length costs.old) }
    ensures { (fars.new ≡ front (fars_of form n count bytes.now) fars.old)
        × (costs.new ≡ front (costs_of form n count bytes.now) costs.old) }
{
    for k in 0..count {
        let p = row_at(form, n, k);
        fars[k] = far_at(bytes, p, n);
        costs[k] = cost_at(bytes, p + (n - 1), form.width);
    }
}
