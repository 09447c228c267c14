// Packs fields of bits into lent bytes, most significant bit first, of any width up to 64. Bits are gathered in a number that goes by value
// from field to field; whole bytes leave it as soon as they are full. Each byte is stored once, and none is loaded.
#![tactic(auto)]

ghost use Rattle.std.specs.Prelude.{[], ◌≡◌, max, ◌%◌, ◌*◌, ◌+◌, ◌-◌, ◌<◌, ◌≤◌, length, set};
ghost use Rattle.bits.specs.Bits.{bits_of};
ghost use Rattle.bits.specs.Forms.{bytes_for};
ghost use Rattle.packer.specs.Gathering.{Finished, Gathers, Part, Put, Room, Same, put_count};
ghost use Rattle.packer.specs.Start.{start_bits, started};

use bits::Form;

// So many bytes are stored, and the count upper bits of bits are gathered. Those below them are 0.
#[derive(Clone, Copy)]
pub struct Gathered {
    pub at: usize,
    pub count: usize,
    pub bits: u64,
}

// The low eight bits of x become byte at. No other function that packs stores to the lent bytes, and none loads from them.
fn store(out: &mut [u8], at: usize, x: u64)
    requires { at < length out.old }
    ensures { out.new ≡ set out.old at (x % 256) }
{
    out[at] = (x % 256) as u8;
}

// The upper byte goes out, if a whole one is gathered.
fn byte_out(out: &mut [u8], g: Gathered) -> Gathered
    requires { Gathers (length out.old) g }
    ensures { Same out.old out.new g result × (result.count ≤ max 7 (g.count - 8)) }
{
    if g.count < 8 {
        return g;
    }
    store(out, g.at, g.bits >> 56);
    let next = g.at + 1;
    Gathered {
        at: next,
        count: g.count - 8,
        bits: g.bits << 8,
    }
}

// Whole bytes go out, until less than a byte is gathered. There are four at most.
fn drain(out: &mut [u8], g: Gathered) -> Gathered
    requires { (g.count ≤ 39) × Gathers (length out.old) g }
    ensures { Put [] out.old out.new g result }
{
    let one = byte_out(out, g);
    let two = byte_out(out, one);
    let three = byte_out(out, two);
    byte_out(out, three)
}

// A field of at most 32 bits behind what was put. It is moved up, which takes away what stands above it, and then down behind the bits gathered,
// where it always has place. These are fewer than eight; the remainder says so to the compiler, which then knows for most bytes of a field
// whether they go out.
pub fn put(out: &mut [u8], g: Gathered, width: usize, value: u64) -> Gathered
    requires { (width ≤ 32) × Room (length out.old) g width }
    ensures { Put (bits_of width value) out.old out.new g result }
{
    let part = g.count % 8;
    let field = ((value << (56 - width)) << 8) >> part;
    let count = part + width;
    let bits = g.bits + field;
    let more = Gathered {
        at: g.at,
        count,
        bits,
    };
    drain(out, more)
}

// A field of at most 64 bits behind what was put, as one field or two.
pub fn put_wide(out: &mut [u8], g: Gathered, width: usize, value: u64) -> Gathered
    requires { (width ≤ 64) × Room (length out.old) g width }
    ensures { Put (bits_of width value) out.old out.new g result }
{
    if width <= 32 {
        return put(out, g, width, value);
    }
    let upper = put(out, g, width - 32, value >> 32);
    put(out, upper, 32, value)
}

// What every stored table starts with: the mark of its form, and n in 7 bits.
pub fn start(out: &mut [u8], form: Form, n: usize) -> Gathered
    requires { (form.head ≤ 32) × (form.head + 7 ≤ 8 * length out.old) }
    ensures { Put (start_bits form n) out.old out.new started result }
{
    let nothing = Gathered {
        at: 0,
        count: 0,
        bits: 0,
    };
    let marked = put(out, nothing, form.head, form.mark);
    put(out, marked, 7, n as u64)
}

// The last part of a byte goes out: its fill bits are a field of value 0. The answer is the bytes stored.
pub fn finish(out: &mut [u8], g: Gathered) -> usize
    requires { Part g × (bytes_for (put_count g) ≤ length out.old) }
    ensures { Finished out.old out.new g result }
{
    let whole = put(out, g, (8 - g.count) % 8, 0);
    whole.at
}
