// The forms of the stored cost table: where its rows and entries stand, and a field of it. Images are counted from 0.
#![tactic(auto)]

ghost use Rattle.std.specs.Prelude.{◌≡◌, ◌+◌, ◌≤◌, length};
ghost use Rattle.bits.specs.Bits.{FieldWithin, bits, part, value_of};
ghost use Rattle.bits.specs.Forms.{bytes_for};
ghost use Rattle.cost_forms.specs.Entries.{entry_count};
ghost use Rattle.cost_forms.specs.Form.{cost_form, cost_form_at, row_at};
ghost use Rattle.cost_forms.specs.Said.{images_of};
ghost use Rattle.cost_forms.specs.Sizes.{Small};

use bits::{Edition, Form};

// Both forms. In the old one nothing stands in front of n and an entry has 20 bits; in the new one the mark does, and an entry has 23.
pub fn form_of(edition: Edition) -> Form
    ensures { result ≡ cost_form edition }
{
    match edition {
        Edition::Old => Form {
            head: 0,
            mark: 0,
            width: 20,
            limit: theory::OLD_LIMIT,
        },
        Edition::New => Form {
            head: 7,
            mark: bits::NEW_MARK,
            width: 23,
            limit: theory::LIMIT,
        },
    }
}

// The form of the table at the position, which its first seven bits tell.
pub fn form_at(bytes: &[u8], position: usize) -> Form
    ensures { result ≡ cost_form_at bytes.now position }
{
    form_of(bits::edition_at(bytes, position))
}

// The bit at which row i begins, which is where the rows before it end.
#[tactic(auto, using(crate::specs::Laws::Entries::counted))]
pub fn row_at(form: Form, n: usize, i: usize) -> usize
    requires { Small form n × (i ≤ n) }
    ensures { result ≡ row_at form n i }
{
    form.head + 7 + form.width * (i * n - i * (i + 1) / 2)
}

// How many entries a table of n images has.
#[tactic(auto, using(crate::specs::Laws::Entries::counted))]
pub fn entry_count(n: usize) -> usize
    requires { n ≤ 64 }
    ensures { result ≡ entry_count n }
{
    n * n - n * (n + 1) / 2
}

// The number n that the bytes say.
#[tactic(auto, unfolding(crate::specs::Said::images_of))]
pub fn images(form: Form, bytes: &[u8]) -> usize
    requires { (form.head ≤ 7) × (bytes_for (form.head + 7) ≤ length bytes.now) }
    ensures { result ≡ images_of form bytes.now }
{
    bits::get(bytes, form.head, 7) as usize
}

// The entry of w bits at the position.
#[tactic(auto, using(bits::specs::Laws::Turns::value_part_lt))]
pub fn entry_at(bytes: &[u8], position: usize, w: usize) -> u32
    requires { (w ≤ 32) × FieldWithin (length bytes.now) position w }
    ensures { result ≡ value_of (part (bits bytes.now) position w) }
{
    bits::get(bytes, position, w) as u32
}
