// The choice between two stored link tables: the one whose inner far sides include all of the other's, the first if both do. Each is read in
// the form that its own bytes tell. Bytes behind either table are ignored.
#![tactic(auto)]

pub mod answer;

ghost use Rattle.std.specs.Prelude.{◌≡◌, ◌≤◌, ◌^◌, length};
ghost use Rattle.ground.specs.Ascending.{Between};
ghost use Rattle.ground.specs.Refusals.{refusal};
ghost use Rattle.theory.specs.Comparison.{inners};
ghost use Rattle.choice.specs.Call.{against_second, choice_either, part_of, taken};
ghost use Rattle.choice.specs.Read.{TableRead};
ghost use Rattle.link_forms.specs.Form.{link_form_at};

pub use answer::Choice;
use ground::{Refusal, TableRefusal};
use stored_links::LinksRead;

// A refusal that is no table's and has no places.
fn plain(number: u32) -> TableRefusal
    ensures { result ≡ record { table = 0; refusal = refusal number 0 0 0 0 } }
{
    TableRefusal {
        table: 0,
        refusal: Refusal {
            number,
            a: 0,
            b: 0,
            c: 0,
            d: 0,
        },
    }
}

// Reads the table at the front of the bytes. Its far sides stand at the front of fars; its costs are not wanted. 128 places are more
// than any link table has rows, so refusal 3 is never given.
fn read(bytes: &[u8], fars: &mut [u64]) -> Result<LinksRead, Refusal>
    requires { length fars.old ≡ 128 }
    ensures { TableRead (link_form_at bytes.now 0) bytes.now result fars.new }
{
    let mut costs = [0u32; 128];
    stored_links::read_links(bytes, 0, fars, &mut costs)
}

// Of two tables over n images, with i and j used bytes, the one that includes the other, else refusal 14. The far sides in common
// are counted by one merge: a table includes the other where they are all inner far sides of the other.
fn take_one(
    n: usize,
    first: &[u64],
    i: usize,
    second: &[u64],
    j: usize,
) -> Result<Choice, TableRefusal>
    requires { (3 ≤ n) × (n ≤ 64) × Between 1 first.now (2 ^ n) × Between 1 second.now (2 ^ n) × (length first.now ≤ 128)
        × (length second.now ≤ 128) }
    ensures { result ≡ taken (inners n first.now) i (inners n second.now) j }
{
    let d = counts::differ(n, first, second);
    if d.common == d.second {
        return Ok(Choice { table: 1, used: i });
    }
    if d.common == d.first {
        return Ok(Choice { table: 2, used: j });
    }
    Err(plain(14))
}

// The far sides of the first table over n images, with i used bytes, against the second table: its refusal with number 2, then 15
// and 14.
fn against_second(n: usize, first: &[u64], i: usize, second: &[u8]) -> Result<Choice, TableRefusal>
    requires { (3 ≤ n) × (n ≤ 64) × Between 1 first.now (2 ^ n) × (length first.now ≤ 128) }
    ensures { result ≡ against_second (link_form_at second.now 0) n first.now i second.now }
{
    let mut fars = [0u64; 128];
    let read = read(second, &mut fars).map_err(|r| r.in_table(2))?;
    if n != read.n {
        return Err(plain(15));
    }
    take_one(n, first, i, &fars[..read.count], read.used)
}

// The chosen table's number and its count of used bytes, or the first refusal: those of the first table, those of the second, 15, 14.
pub fn choice(first: &[u8], second: &[u8]) -> Result<Choice, TableRefusal>
    ensures { result ≡ choice_either first.now second.now }
{
    let mut fars = [0u64; 128];
    let read = read(first, &mut fars).map_err(|r| r.in_table(1))?;
    against_second(read.n, &fars[..read.count], read.used, second)
}

// The used bytes of the chosen table, where they stand in its own buffer; an empty part where the choice is refused.
pub fn choose<'a>(first: &'a [u8], second: &'a [u8]) -> &'a [u8]
    ensures { result.now ≡ part_of (choice_either first.now second.now) first.now second.now }
{
    match choice(first, second) {
        Err(_) => &first[..0],
        Ok(choice) => {
            if choice.table == 1 {
                return &first[..choice.used];
            }
            &second[..choice.used]
        }
    }
}
