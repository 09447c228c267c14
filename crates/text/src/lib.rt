// Text in a lent slice of bytes: a word, a number by its decimal digits, a number behind a blank. Every function that writes takes the place
// where its text begins and answers the place behind it.
#![tactic(auto)]

pub mod whole;

ghost use Rattle.std.specs.Prelude.{◌∷◌, [], ◌≡◌, ◌<◌, length};
ghost use Rattle.text.specs.Decimal.{decimal};
ghost use Rattle.text.specs.Fields.{field, fields};
ghost use Rattle.text.specs.Putting.{Fits, Put};

pub use whole::Text;

// One byte.
#[tactic(auto, using(crate::specs::Laws::Putting::put_one))]
pub fn put_byte(out: &mut [u8], at: usize, b: u8) -> usize
    requires { at < length out.old }
    ensures { Put (b ∷ []) at out.old result out.new }
{
    out[at] = b;
    at + 1
}

// The bytes of a word.
#[tactic(auto, using(crate::proofs::Laws::Turns::word_step, crate::proofs::Laws::Turns::word_end))]
pub fn put_word(out: &mut [u8], at: usize, word: &[u8]) -> usize
    requires { Fits word.now at out.old }
    ensures { Put word.now at out.old result out.new }
{
    let mut place = at;
    for byte in word {
        place = put_byte(out, place, *byte);
    }
    place
}

// The digits of x: those of a tenth of it, then the last.
#[tactic(auto, using(crate::proofs::Laws::Numbers::decimal_small, crate::proofs::Laws::Numbers::decimal_longer))]
pub fn put_number(out: &mut [u8], at: usize, x: u64) -> usize
    requires { Fits (decimal x) at out.old }
    ensures { Put (decimal x) at out.old result out.new }
{
    if x < 10 {
        return put_byte(out, at, 48 + x as u8);
    }
    let last = put_number(out, at, x / 10);
    put_byte(out, last, 48 + (x % 10) as u8)
}

// One blank, and the digits of x.
#[tactic(auto, unfolding(crate::specs::Fields::field))]
pub fn put_field(out: &mut [u8], at: usize, x: u64) -> usize
    requires { Fits (field x) at out.old }
    ensures { Put (field x) at out.old result out.new }
{
    let p = put_byte(out, at, 32);
    put_number(out, p, x)
}

// Each number behind one blank.
#[tactic(auto, using(crate::proofs::Laws::Turns::field_fits, crate::proofs::Laws::Turns::field_step, crate::proofs::Laws::Turns::all_fields))]
pub fn put_fields(out: &mut [u8], at: usize, l: &[u32]) -> usize
    requires { Fits (fields l.now) at out.old }
    ensures { Put (fields l.now) at out.old result out.new }
{
    let mut place = at;
    for x in l {
        place = put_field(out, place, u64::from(*x));
    }
    place
}
