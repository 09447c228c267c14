// Fields of bits taken from a slice of bytes, most significant bit first, of any width up to 64; and what tells one stored form from another.
#![tactic(auto)]

ghost use Rattle.std.specs.Prelude.{◌≡◌, ◌*◌, ◌+◌, ◌/◌, ◌%◌, ◌^◌, ◌<◌, ◌≤◌, drop, length};
ghost use Rattle.bits.specs.Kinds.{misplaced};
ghost use Rattle.bits.specs.Editions.{edition_by, edition_of};
ghost use Rattle.bits.specs.Bits.{bits, FieldWithin, number_at, part, Turn, value_of};

// How a kind of table is stored: so many bits in front with the mark's value, so many bits for a number, and the limit on an entry.
#[derive(Clone, Copy, PartialEq, Eq)]
pub struct Form {
    pub head: usize,
    pub mark: u64,
    pub width: usize,
    pub limit: u32,
}

// The two stored forms of each kind of table: the old one, which begins with n, and the new one, which begins with a mark.
#[derive(Clone, Copy, PartialEq, Eq)]
pub enum Edition {
    Old,
    New,
}

// What the new forms begin with, in 7 bits: no table has so many images.
pub const NEW_MARK: u64 = 127;

// x moved up by k bits.
fn raised(x: u64, k: usize) -> u64
    requires { (k < 64) × (x * 2 ^ k < 2 ^ 64) }
    ensures { result ≡ x * 2 ^ k }
{
    x << k
}

// The w lowest bits of x.
fn low_bits(x: u64, w: usize) -> u64
    requires { w < 64 }
    ensures { result ≡ x % 2 ^ w }
{
    x % (1u64 << w)
}

// The w bits of x that stand above its k lowest.
fn bits_above(x: u64, k: usize, w: usize) -> u64
    requires { (k < 64) × (w < 64) }
    ensures { result ≡ x / 2 ^ k % 2 ^ w }
{
    low_bits(x >> k, w)
}

// How many bits one turn moves: as many as are left, but none past the end of the byte in which it begins.
fn turn_width(offset: usize, left: usize) -> usize
    requires { (offset < 8) × (0 < left) }
    ensures { Turn offset left result }
{
    left.min(8 - offset)
}

// The number x with the byte behind it.
fn with_byte(x: u64, b: u8) -> u64
    requires { x < 2 ^ 56 }
    ensures { result ≡ x * 2 ^ 8 + b }
{
    raised(x, 8) + u64::from(b)
}

// The number x with the two bytes from q on behind it.
fn with_two(x: u64, bytes: &[u8], q: usize) -> u64
    requires { (x < 2 ^ 48) × (q + 2 ≤ length bytes.now) }
    ensures { result ≡ x * 2 ^ 16 + number_at bytes.now (8 * q) 16 }
{
    with_byte(with_byte(x, bytes[q]), bytes[q + 1])
}

// The number x with the four bytes from q on behind it.
fn with_four(x: u64, bytes: &[u8], q: usize) -> u64
    requires { (x < 2 ^ 32) × (q + 4 ≤ length bytes.now) }
    ensures { result ≡ x * 2 ^ 32 + number_at bytes.now (8 * q) 32 }
{
    with_two(with_two(x, bytes, q), bytes, q + 2)
}

// The number in the eight bytes from q on. In this form, each byte put behind those before it, the compiler makes one load of the eight.
fn eight_bytes(bytes: &[u8], q: usize) -> u64
    requires { q + 8 ≤ length bytes.now }
    ensures { result ≡ number_at bytes.now (8 * q) 64 }
{
    with_four(with_four(0, bytes, q), bytes, q + 4)
}

// The number in the width bits at the position, taken byte by byte.
fn get_by_turns(bytes: &[u8], position: usize, width: usize) -> u64
    requires { FieldWithin (length bytes.now) position width }
    ensures { result ≡ number_at bytes.now position width }
{
    let mut value: u64 = 0;
    let mut done = 0;
    // A `while`: each turn moves as many bits as are left in its byte.
    while done < width {
        let p = position + done;
        let offset = p % 8;
        let q = p / 8;
        let s = turn_width(offset, width - done);
        let x = u64::from(bytes[q]);
        value = raised(value, s) + bits_above(x, 8 - offset - s, s);
        done += s;
    }
    value
}

// The number in at most 56 bits at the position. Such a field stands within the eight bytes from the byte on in which it begins, so that it is
// a piece of their number; where fewer bytes are left, it is taken in turns.
fn get_narrow(bytes: &[u8], position: usize, width: usize) -> u64
    requires { (width ≤ 56) × FieldWithin (length bytes.now) position width }
    ensures { result ≡ number_at bytes.now position width }
{
    let q = position / 8;
    if 0 < width && 8 <= bytes.len() - q {
        return bits_above(eight_bytes(bytes, q), 64 - position % 8 - width, width);
    }
    get_by_turns(bytes, position, width)
}

// The number in the width bits at the position. A wide field is taken as two narrow ones.
pub fn get(bytes: &[u8], position: usize, width: usize) -> u64
    requires { FieldWithin (length bytes.now) position width }
    ensures { result ≡ value_of (part (bits bytes.now) position width) }
{
    if width <= 56 {
        return get_narrow(bytes, position, width);
    }
    let upper = width - 32;
    raised(get_narrow(bytes, position, upper), 32) + get_narrow(bytes, position + upper, 32)
}

// Whether the position is past the end of so many bytes, or not at the start of a byte.
pub fn is_misplaced(bytes: usize, position: usize) -> bool
    ensures { result ≡ misplaced bytes position }
{
    bytes < position / 8 || 0 < position % 8
}

// Which form the table has that the bytes begin with: the first seven bits tell. No bytes begin with nothing, which is no mark.
fn edition_told(bytes: &[u8]) -> Edition
    ensures { result ≡ edition_of bytes.now }
{
    if bytes.is_empty() {
        return Edition::Old;
    }
    if get(bytes, 0, 7) == NEW_MARK {
        return Edition::New;
    }
    Edition::Old
}

// The same of the table at the position. Past the end there are no bytes.
pub fn edition_at(bytes: &[u8], position: usize) -> Edition
    ensures { result ≡ edition_of (drop (position / 8) bytes.now) }
{
    if bytes.len() < position / 8 {
        return Edition::Old;
    }
    edition_told(&bytes[position / 8..])
}

// The form that a number stands for, where an enum cannot cross: 0 is the old one, and every other number the new one.
impl From<usize> for Edition {
    ghost from_gives = { λ number edition. edition ≡ edition_by number };

    fn from(number: usize) -> Edition {
        match number {
            0 => Edition::Old,
            _ => Edition::New,
        }
    }
}
