// The stored link table read. The functions below the public calls take the form as an argument. Images and rows are counted from 0.
#![tactic(auto)]

ghost use Rattle.std.specs.Prelude.{◌≡◌, ◌+◌, ◌≤◌, length, take};
ghost use Rattle.theory.specs.Outcomes.{LeftRows};
ghost use Rattle.links.specs.Checks.{row_checks};
ghost use Rattle.bits.specs.Forms.{bytes_for};
ghost use Rattle.link_forms.specs.Said.{costs_of, count_of, fars_of, images_of, used_of};
ghost use Rattle.stored_links.specs.Outcomes.{judged, judged_either, read_either};
ghost use Rattle.stored_links.specs.Reading.{body_checks, head_checks, read_at_checks, read_checks};
ghost use Rattle.link_forms.specs.Sizes.{Held, Small};

use bits::Form;
use ground::Refusal;

// What the reader answers of a table that it accepts: n, the row count, and the bytes used by this table alone.
#[derive(Clone, Copy, PartialEq, Eq)]
pub struct LinksRead {
    pub n: usize,
    pub count: usize,
    pub used: usize,
}

// Refusals 9, 1 and 10.
fn check_head(form: Form, bytes: &[u8]) -> Result<(), Refusal>
    requires { form.head ≤ 7 }
    ensures { result ≡ head_checks form bytes.now }
{
    ground::refuse_if(bytes.len() < (form.head + 14 + 7) / 8, 9, 0, 0)?;
    let n = link_forms::images(form, bytes);
    let count = link_forms::row_count(form, bytes);
    links::check_count(n, count)
}

// Refusals 12 and 13 of the first rows of two slices.
fn check_front(
    most: u32,
    n: usize,
    count: usize,
    fars: &[u64],
    costs: &[u32],
) -> Result<(), Refusal>
    requires { (3 ≤ n) × (n ≤ 64) × (count ≤ 125) × (count ≤ length fars.now) × (count ≤ length costs.now) }
    ensures { result ≡ row_checks most n (take count fars.now) (take count costs.now) }
{
    links::check_rows(most, n, &fars[..count], &costs[..count])
}

// Refusals 12 and 13 of the rows that the bytes say, which are laid out in local places first.
fn check_said(form: Form, n: usize, count: usize, bytes: &[u8]) -> Result<(), Refusal>
    requires { Held form n count (length bytes.now) }
    ensures { result ≡ row_checks form.limit n (fars_of form n count bytes.now) (costs_of form n count bytes.now) }
{
    let mut fars = [0u64; 128];
    let mut costs = [0u32; 128];
    link_forms::fill(form, n, count, bytes, &mut fars, &mut costs);
    check_front(form.limit, n, count, &fars, &costs)
}

// Refusals 9, 11, 12 and 13 of the bytes behind the row count.
#[tactic(auto, unfolding(link_forms::specs::Said::fill_of))]
fn check_body(form: Form, n: usize, count: usize, bytes: &[u8]) -> Result<(), Refusal>
    requires { Small form n count }
    ensures { result ≡ body_checks form n count bytes.now }
{
    let end = link_forms::row_at(form, n, count);
    let used = (end + 7) / 8;
    ground::refuse_if(bytes.len() < used, 9, 0, 0)?;
    ground::refuse_if(0 < bits::get(bytes, end, 8 * used - end), 11, 0, 0)?;
    check_said(form, n, count, bytes)
}

// All checks of the table at the front of the bytes.
fn check_stored(form: Form, bytes: &[u8], room: usize) -> Result<(), Refusal>
    requires { (form.head ≤ 7) × (form.width ≤ 32) }
    ensures { result ≡ read_checks form bytes.now room }
{
    check_head(form, bytes)?;
    let n = link_forms::images(form, bytes);
    ground::refuse_if(room < 2 * n - 3, 3, 0, 0)?;
    check_body(form, n, link_forms::row_count(form, bytes), bytes)
}

// All checks at a position: the rest of the bytes from there on is looked at as one begins.
fn check_at(form: Form, bytes: &[u8], position: usize, room: usize) -> Result<(), Refusal>
    requires { (form.head ≤ 7) × (form.width ≤ 32) }
    ensures { result ≡ read_at_checks form bytes.now position room }
{
    ground::refuse_if(bits::is_misplaced(bytes.len(), position), 9, 0, 0)?;
    check_stored(form, &bytes[position / 8..], room)
}

// The table that the bytes say, once all checks passed.
fn said(form: Form, bytes: &[u8]) -> LinksRead
    requires { (bytes_for (form.head + 14) ≤ length bytes.now) × Small form (images_of form bytes.now) (count_of form bytes.now) }
    ensures { result ≡ record { n = images_of form bytes.now; count = count_of form bytes.now; used = used_of form bytes.now } }
{
    let n = link_forms::images(form, bytes);
    let count = link_forms::row_count(form, bytes);
    LinksRead {
        n,
        count,
        used: (link_forms::row_at(form, n, count) + 7) / 8,
    }
}

// What reading at the position answers: the table once all checks passed.
fn judge(form: Form, bytes: &[u8], position: usize, room: usize) -> Result<LinksRead, Refusal>
    requires { (form.head ≤ 7) × (form.width ≤ 32) }
    ensures { result ≡ judged form bytes.now position room }
{
    check_at(form, bytes, position, room)?;
    Ok(said(form, &bytes[position / 8..]))
}

// What reading the link table at the position answers, in either form, where so many places are lent in each output. Nothing is written.
pub fn judge_links(bytes: &[u8], position: usize, room: usize) -> Result<LinksRead, Refusal>
    ensures { result ≡ judged_either bytes.now position room }
{
    judge(link_forms::form_at(bytes, position), bytes, position, room)
}

// The link table at the position, in either form, into the lent places: everything is judged before the first store.
pub fn read_links(
    bytes: &[u8],
    position: usize,
    fars: &mut [u64],
    costs: &mut [u32],
) -> Result<LinksRead, Refusal>
    ensures { LeftRows (read_either bytes.now position fars.old costs.old) result fars.new
        costs.new }
{
    let form = link_forms::form_at(bytes, position);
    let read = judge(form, bytes, position, fars.len().min(costs.len()))?;
    link_forms::fill(
        form,
        read.n,
        read.count,
        &bytes[position / 8..],
        fars,
        costs,
    );
    Ok(read)
}
