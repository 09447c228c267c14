// The stored cost table read. The functions below the public calls take the form as an argument. Images are counted from 0.
#![tactic(auto)]

ghost use Rattle.std.specs.Prelude.{◌≡◌, ◌+◌, ◌-◌, ◌<◌, ◌≤◌, length};
ghost use Rattle.ground.specs.Lowest.{check_all};
ghost use Rattle.ground.specs.Outcomes.{Left};
ghost use Rattle.tables.specs.Pairs.{pairs_check};
ghost use Rattle.cost_forms.specs.Entries.{entry_cost};
ghost use Rattle.cost_forms.specs.Said.{entry_of};
ghost use Rattle.stored_costs.specs.Outcomes.{judged, judged_either, read_either};
ghost use Rattle.stored_costs.specs.Reading.{body_checks, read_at_checks, read_checks, start_checks, value_check, values_check};
ghost use Rattle.cost_forms.specs.Sizes.{Held, Small};

use bits::Form;
use ground::Refusal;

// What the reader answers of a table that it accepts: n, and the bytes used by this table alone.
#[derive(Clone, Copy, PartialEq, Eq)]
pub struct CostsRead {
    pub n: usize,
    pub used: usize,
}

// Refusals 9, 1 and 3.
fn check_start(form: Form, bytes: &[u8], room: usize) -> Result<(), Refusal>
    requires { form.head ≤ 7 }
    ensures { result ≡ start_checks form bytes.now room }
{
    ground::refuse_if(bytes.len() < (form.head + 7 + 7) / 8, 9, 0, 0)?;
    let n = cost_forms::images(form, bytes);
    theory::check_images(n)?;
    ground::refuse_if(room < n * n, 3, 0, 0)
}

// Refusals 9 and 11 of the bytes behind n.
fn check_body(form: Form, n: usize, bytes: &[u8]) -> Result<(), Refusal>
    requires { Small form n }
    ensures { result ≡ body_checks form n bytes.now }
{
    let end = cost_forms::row_at(form, n, n);
    let used = (end + 7) / 8;
    ground::refuse_if(bytes.len() < used, 9, 0, 0)?;
    ground::refuse_if(0 < bits::get(bytes, end, 8 * used - end), 11, 0, 0)
}

// Refusal 4 of the entry of i and j, and 20 where it is below the least.
fn check_value(least: u32, most: u32, value: u32, i: usize, j: usize) -> Result<(), Refusal>
    requires { (i < 64) × (j < 64) }
    ensures { result ≡ value_check least most (λ i j. value) i j }
{
    ground::refuse_if(most < value, 4, i + 1, j + 1)?;
    ground::refuse_if(value < least, 20, i + 1, j + 1)
}

// The same in row i, right of the diagonal.
#[tactic(auto, using(ground::specs::Laws::Lowest::in_turn))]
fn check_row(form: Form, least: u32, n: usize, bytes: &[u8], i: usize) -> Result<(), Refusal>
    requires { Held form n (length bytes.now) × (i < n) }
    ensures { result ≡ check_all (value_check least form.limit (entry_cost (entry_of form bytes.now) n) i) (i + 1) (n - (i + 1)) }
{
    let mut p = cost_forms::row_at(form, n, i);
    for j in i + 1..n {
        check_value(
            least,
            form.limit,
            cost_forms::entry_at(bytes, p, form.width),
            i,
            j,
        )?;
        p += form.width;
    }
    Ok(())
}

// The same row by row.
#[tactic(auto, using(ground::specs::Laws::Lowest::in_turn))]
fn check_entries(form: Form, least: u32, n: usize, bytes: &[u8]) -> Result<(), Refusal>
    requires { Held form n (length bytes.now) }
    ensures { result ≡ pairs_check (value_check least form.limit (entry_cost (entry_of form bytes.now) n)) n }
{
    for i in 0..n {
        check_row(form, least, n, bytes, i)?;
    }
    Ok(())
}

// Refusals 4 and 20. One pass finds the first entry that has either; only where there is one, a second pass asks for 4 alone, which comes first.
fn check_values(form: Form, n: usize, bytes: &[u8]) -> Result<(), Refusal>
    requires { Held form n (length bytes.now) }
    ensures { result ≡ values_check form.limit (entry_cost (entry_of form bytes.now) n) n }
{
    let either = check_entries(form, 1, n, bytes);
    if either.is_err() {
        check_entries(form, 0, n, bytes)?;
    }
    either
}

// All checks of the table at the front of the bytes, where so many places are lent.
pub fn check_stored(form: Form, bytes: &[u8], room: usize) -> Result<(), Refusal>
    requires { (form.head ≤ 7) × (form.width ≤ 32) }
    ensures { result ≡ read_checks form bytes.now room }
{
    check_start(form, bytes, room)?;
    let n = cost_forms::images(form, bytes);
    check_body(form, n, bytes)?;
    check_values(form, n, bytes)
}

// All checks at a position: the rest of the bytes from there on is looked at as one begins.
fn check_at(form: Form, bytes: &[u8], position: usize, room: usize) -> Result<(), Refusal>
    requires { (form.head ≤ 7) × (form.width ≤ 32) }
    ensures { result ≡ read_at_checks form bytes.now position room }
{
    ground::refuse_if(bits::is_misplaced(bytes.len(), position), 9, 0, 0)?;
    check_stored(form, &bytes[position / 8..], room)
}

// What reading at the position answers: n and the bytes used once all checks passed.
fn judge(form: Form, bytes: &[u8], position: usize, room: usize) -> Result<CostsRead, Refusal>
    requires { (form.head ≤ 7) × (form.width ≤ 32) }
    ensures { result ≡ judged form bytes.now position room }
{
    check_at(form, bytes, position, room)?;
    let n = cost_forms::images(form, &bytes[position / 8..]);
    Ok(CostsRead {
        n,
        used: (cost_forms::row_at(form, n, n) + 7) / 8,
    })
}

// What reading the cost table at the position answers, in either form, where so many places are lent. Nothing is written.
pub fn judge_costs(bytes: &[u8], position: usize, room: usize) -> Result<CostsRead, Refusal>
    ensures { result ≡ judged_either bytes.now position room }
{
    judge(cost_forms::form_at(bytes, position), bytes, position, room)
}

// The cost table at the position, in either form, into the lent places: everything is judged before the first store.
pub fn read_costs(bytes: &[u8], position: usize, out: &mut [u32]) -> Result<CostsRead, Refusal>
    ensures { Left (read_either bytes.now position out.old) result out.new }
{
    let form = cost_forms::form_at(bytes, position);
    let read = judge(form, bytes, position, out.len())?;
    filled_costs::fill(form, read.n, &bytes[position / 8..], out);
    Ok(read)
}
