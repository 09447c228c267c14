// The places of a cost table filled from its stored form, in whichever form. Images are counted from 0.
#![tactic(auto)]

ghost use Rattle.std.specs.Prelude.{◌≡◌, ◌*◌, ◌+◌, ◌<◌, ◌≤◌, length};
ghost use Rattle.ground.specs.Buffers.{front};
ghost use Rattle.theory.specs.Tables.{cost};
ghost use Rattle.bits.specs.Bits.{bits, over_at};
ghost use Rattle.bits.specs.Forms.{field_value};
ghost use Rattle.bits.specs.Listed.{listed};
ghost use Rattle.cost_forms.specs.Entries.{Above, entry_cost};
ghost use Rattle.cost_forms.specs.Said.{stored_table, entry_of};
ghost use Rattle.cost_forms.specs.Sizes.{Held, Span};

use bits::Form;

// The places of row i left of the diagonal: each is the place of column i that mirrors it.
fn fill_left(n: usize, i: usize, out: &mut [u32])
    requires { (n ≤ 64) × (i < n) × (n * n ≤ length out.old) }
    ensures { out.new ≡ over_at out.old (i * n) (listed (λ j. cost out.old n j i) i) }
{
    let start = i * n;
    let mut above = i;
    for j in 0..i {
        out[start + j] = out[above];
        above += n;
    }
}

// So many places from the start on, in a row right of the diagonal: the entries from the position on.
fn fill_right(position: usize, w: usize, count: usize, bytes: &[u8], start: usize, out: &mut [u32])
    requires { Span position w count (length bytes.now) × (start + count ≤ 4096) × (start + count ≤ length out.old) }
    ensures { out.new ≡ over_at out.old start (listed (field_value (bits bytes.now) position w) count) }
{
    let mut p = position;
    for k in 0..count {
        out[start + k] = cost_forms::entry_at(bytes, p, w);
        p += w;
    }
}

// Row i, where the places of column i above it are filled.
fn fill_row(form: Form, n: usize, bytes: &[u8], i: usize, out: &mut [u32])
    requires { Held form n (length bytes.now) × (i < n) × (n * n ≤ length out.old) × Above (entry_of form bytes.now) n i out.old }
    ensures { out.new ≡ over_at out.old (i * n) (listed (entry_cost (entry_of form bytes.now) n i) n) }
{
    fill_left(n, i, out);
    out[i * n + i] = 0;
    let p = cost_forms::row_at(form, n, i);
    fill_right(p, form.width, n - (i + 1), bytes, i * n + (i + 1), out);
}

// All places of the table at the front of the bytes, row by row, one store a place.
pub fn fill(form: Form, n: usize, bytes: &[u8], out: &mut [u32])
    requires { Held form n (length bytes.now) × (n * n ≤ length out.old) }
    ensures { out.new ≡ front (stored_table form n bytes.now) out.old }
{
    for i in 0..n {
        fill_row(form, n, bytes, i, out);
    }
}
