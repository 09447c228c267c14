// What stands at a bit position of stored bytes, a table in the form that its bytes tell or a field, and where one who reads it then stands.
#![tactic(auto)]

ghost use Rattle.std.specs.Prelude.{◌≡◌, ◌+◌, ◌/◌, ◌<◌, ◌^◌, ltb};
ghost use Rattle.ground.specs.Outcomes.{Left};
ghost use Rattle.theory.specs.Outcomes.{LeftRows};
ghost use Rattle.positions.specs.Fields.{field_at, field_checks, reach};
ghost use Rattle.positions.specs.Stands.{behind, costs_at, links_at};

use ground::Refusal;
use stored_costs::CostsRead;
use stored_links::LinksRead;

// What reading a cost table answers, and where the reader then stands.
#[derive(Clone, Copy)]
pub struct CostsTaken {
    pub table: Result<CostsRead, Refusal>,
    pub position: usize,
}

// What reading a link table answers, and where the reader then stands.
#[derive(Clone, Copy)]
pub struct LinksTaken {
    pub table: Result<LinksRead, Refusal>,
    pub position: usize,
}

// What reading a field answers, the number in its bits or the refusal, and where the reader then stands.
#[derive(Clone, Copy)]
pub struct FieldTaken {
    pub field: Result<u64, Refusal>,
    pub position: usize,
}

// The largest number of 64 bits, which is inside a byte.
const LARGEST_POSITION: usize = 18446744073709551615;

// How many bytes begin at a bit that has a number of 64 bits.
const COUNTED_BYTES: usize = 2305843009213693952;

// The bit at which the byte behind a table of so many bytes begins. Where that number has no room it is the last one that has,
// which is inside a byte, so that nothing is read there.
fn behind(position: usize, used: usize) -> usize
    requires { position / 8 + used < 2 ^ 64 }
    ensures { result ≡ behind position used }
{
    let byte = position / 8 + used;
    if byte < COUNTED_BYTES {
        return 8 * byte;
    }
    LARGEST_POSITION
}

// The cost table at the position, into the lent places, and where the reader then stands.
pub fn costs_at<'a, 'b>(bytes: &'a [u8], position: usize, out: &'b mut [u32]) -> CostsTaken
    ensures { Left (costs_at bytes.now position out.old) result out.new }
{
    let table = stored_costs::read_costs(bytes, position, out);
    match table {
        Err(_) => CostsTaken { table, position },
        Ok(read) => CostsTaken {
            table,
            position: behind(position, read.used),
        },
    }
}

// The link table at the position, into the lent places, and where the reader then stands.
pub fn links_at<'a, 'b, 'c>(
    bytes: &'a [u8],
    position: usize,
    fars: &'b mut [u64],
    costs: &'c mut [u32],
) -> LinksTaken
    ensures { LeftRows (links_at bytes.now position fars.old costs.old) result fars.new costs.new }
{
    let table = stored_links::read_links(bytes, position, fars, costs);
    match table {
        Err(_) => LinksTaken { table, position },
        Ok(read) => LinksTaken {
            table,
            position: behind(position, read.used),
        },
    }
}

// Whether fewer than so many bits stand from the position on.
fn is_short(bytes: usize, position: usize, width: usize) -> bool
    ensures { result ≡ ltb (reach bytes) (position + width) }
{
    let end = behind(0, bytes);
    end < position || end - position < width
}

// Refusals 9 and 3 of a field.
fn check_field(bytes: usize, position: usize, width: usize) -> Result<(), Refusal>
    ensures { result ≡ field_checks bytes position width }
{
    ground::refuse_if(is_short(bytes, position, width), 9, 0, 0)?;
    ground::refuse_if(64 < width, 3, 0, 0)
}

// The number in the width bits at the position, and where the reader then stands.
pub fn field_at<'a>(bytes: &'a [u8], position: usize, width: usize) -> FieldTaken
    ensures { result ≡ field_at bytes.now position width }
{
    match check_field(bytes.len(), position, width) {
        Err(r) => FieldTaken {
            field: Err(r),
            position,
        },
        Ok(()) => FieldTaken {
            field: Ok(bits::get(bytes, position, width)),
            position: position + width,
        },
    }
}
