// What every crate uses and that says nothing of images: refusals, a range, a bit of a number, the difference of two numbers, a turn of a
// merge.
#![tactic(auto)]

ghost use Rattle.std.specs.Prelude.{◌≡◌, ◌^◌, ◌<◌, pos, ◌-ℤ◌};
ghost use Rattle.ground.specs.Bits.{bit};
ghost use Rattle.ground.specs.Merges.{advance};
ghost use Rattle.ground.specs.Refusals.{refusal, refuse_if, outside};

// A refusal by its number, with up to four places, unused ones 0. A place holds any argument unchanged. It is a number and no enum: it is
// what crosses to C and Fortran, and every theorem on refusals names it.
#[derive(Clone, Copy, PartialEq, Eq)]
pub struct Refusal {
    pub number: u32,
    pub a: usize,
    pub b: usize,
    pub c: usize,
    pub d: usize,
}

// A refusal by a call that takes several tables, and the number of the table that is refused; 0 where it is no table's.
#[derive(Clone, Copy, PartialEq, Eq)]
pub struct TableRefusal {
    pub table: usize,
    pub refusal: Refusal,
}

impl Refusal {
    // The refusal as that of the table with this number.
    pub fn in_table(self, table: usize) -> TableRefusal
        ensures { result ≡ record { table = table; refusal = self } }
    {
        TableRefusal {
            table,
            refusal: self,
        }
    }
}

// Refused with this number and these two places where the test holds.
pub fn refuse_if(bad: bool, number: u32, a: usize, b: usize) -> Result<(), Refusal>
    ensures { result ≡ refuse_if bad (refusal number a b 0 0) }
{
    if bad {
        return Err(Refusal {
            number,
            a,
            b,
            c: 0,
            d: 0,
        });
    }
    Ok(())
}

// Whether m is outside low..high.
pub fn is_outside(low: usize, high: usize, m: usize) -> bool
    ensures { result ≡ outside low high m }
{
    m < low || high < m
}

// Bit i of s, 1 or 0.
pub fn side(s: u64, i: usize) -> u64
    requires { i < 64 }
    ensures { result ≡ bit s i }
{
    (s >> i) & 1
}

// The number whose bit i alone is 1.
pub fn bit_alone(i: usize) -> u64
    requires { i < 64 }
    ensures { result ≡ 2 ^ i }
{
    1u64 << i
}

// The signed difference of two numbers.
pub fn gap(x: u32, y: u32) -> i64
    ensures { result ≡ pos x -ℤ pos y }
{
    i64::from(x) - i64::from(y)
}

// 1 where x is at most y, so that in a merge the list in which x stands goes on; else 0.
pub fn advance(x: u64, y: u64) -> usize
    ensures { result ≡ advance x y }
{
    if x <= y { 1 } else { 0 }
}
