// What is said of a refusal, for those who read it: words, and the refusal's places behind them. No match has more than five arms, since the
// time of a proof grows faster than the arms.
#![tactic(auto)]

ghost use Rattle.std.specs.Prelude.{◌+◌, ◌≤◌, length};
ghost use Rattle.text.specs.Putting.{Put};
ghost use Rattle.phrases.specs.Said.{saying_text};
ghost use Rattle.sayings.specs.Said.{said_of};
ghost use Rattle.phrases.specs.Saying.{saying_in};
ghost use Rattle.sayings.specs.Sayings.{sayings_from12, sayings_from16, sayings_from20, sayings_from4, sayings_from8};

// What is said of a refusal from 20 on, and of a number that no refusal has.
fn put_from_20(out: &mut [u8], at: usize, number: usize, a: usize, b: usize, c: usize) -> usize
    requires { at + 163 ≤ length out.old }
    ensures { Put (saying_text (saying_in number (sayings_from20 a b c))) at out.old result out.new }
{
    match number {
        20 => phrases::put_two(out, at, b"zero off the diagonal: row and column", a, b),
        21 => phrases::put_three(out, at, b"no levels: images", a, b, c),
        22 => phrases::put_one(out, at, b"siblings out of order: byte", a),
        _ => phrases::put_one(out, at, b"no such refusal: number", number),
    }
}

// What is said of a refusal from 16 on, and of a number that no refusal has.
#[tactic(auto, using(crate::proofs::Turns::this_one, crate::proofs::Turns::one_behind), unfolding(crate::specs::Sayings::sayings_from16))]
fn put_from_16(out: &mut [u8], at: usize, number: usize, a: usize, b: usize, c: usize) -> usize
    requires { at + 163 ≤ length out.old }
    ensures { Put (saying_text (saying_in number (sayings_from16 a b c))) at out.old result out.new }
{
    match number {
        16 => text::put_word(out, at, b"no tables or more than sixteen"),
        17 => phrases::put_above_old(out, at, a, b),
        18 => phrases::put_one(out, at, b"outside the Newick profile: byte", a),
        19 => text::put_word(out, at, b"more than 1,024 far sides in one report"),
        _ => put_from_20(out, at, number, a, b, c),
    }
}

// What is said of a refusal from 12 on, and of a number that no refusal has.
#[tactic(auto, using(crate::proofs::Turns::this_one, crate::proofs::Turns::one_behind), unfolding(crate::specs::Sayings::sayings_from12))]
fn put_from_12(out: &mut [u8], at: usize, number: usize, a: usize, b: usize, c: usize) -> usize
    requires { at + 163 ≤ length out.old }
    ensures { Put (saying_text (saying_in number (sayings_from12 a b c))) at out.old result out.new }
{
    match number {
        12 => phrases::put_bad_row(out, at, a),
        13 => phrases::put_one(out, at, b"an own link is missing: image", a),
        14 => text::put_word(out, at, b"neither table includes the other"),
        15 => text::put_word(out, at, b"stored tables of different n"),
        _ => put_from_16(out, at, number, a, b, c),
    }
}

// What is said of a refusal from 8 on, and of a number that no refusal has.
#[tactic(auto, using(crate::proofs::Turns::this_one, crate::proofs::Turns::one_behind), unfolding(crate::specs::Sayings::sayings_from8))]
fn put_from_8(out: &mut [u8], at: usize, number: usize, a: usize, b: usize, c: usize) -> usize
    requires { at + 163 ≤ length out.old }
    ensures { Put (saying_text (saying_in number (sayings_from8 a b c))) at out.old result out.new }
{
    match number {
        8 => text::put_word(out, at, b"image outside 1..n, or first and last the same"),
        9 => text::put_word(out, at, b"stored bytes end early"),
        10 => phrases::put_one(out, at, b"row count outside n..2n-3: count", a),
        11 => text::put_word(out, at, b"fill bits not zero"),
        _ => put_from_12(out, at, number, a, b, c),
    }
}

// What is said of a refusal from 4 on, and of a number that no refusal has.
#[tactic(auto, using(crate::proofs::Turns::this_one, crate::proofs::Turns::one_behind), unfolding(crate::specs::Sayings::sayings_from4))]
fn put_from_4(
    out: &mut [u8],
    at: usize,
    number: usize,
    a: usize,
    b: usize,
    c: usize,
    d: usize,
) -> usize
    requires { at + 163 ≤ length out.old }
    ensures { Put (saying_text (saying_in number (sayings_from4 a b c d))) at out.old result out.new }
{
    match number {
        4 => phrases::put_two(out, at, b"entry above the limit: row and column", a, b),
        5 => phrases::put_one(out, at, b"diagonal not zero: image", a),
        6 => phrases::put_two(out, at, b"asymmetric: row and column", a, b),
        7 => phrases::put_four(out, at, b"no wiring: images", a, b, c, d),
        _ => put_from_8(out, at, number, a, b, c),
    }
}

// What is said of a refusal, whatever its number.
#[tactic(auto, using(crate::proofs::Turns::this_one, crate::proofs::Turns::one_behind), unfolding(crate::specs::Sayings::sayings, crate::specs::Said::said_of))]
pub fn put_said(
    out: &mut [u8],
    at: usize,
    number: usize,
    a: usize,
    b: usize,
    c: usize,
    d: usize,
) -> usize
    requires { at + 163 ≤ length out.old }
    ensures { Put (said_of number a b c d) at out.old result out.new }
{
    match number {
        0 => text::put_word(out, at, b"accepted"),
        1 => phrases::put_one(out, at, b"n outside 3..64: n", a),
        2 => text::put_word(out, at, b"a length does not fit n or the row count"),
        3 => text::put_word(out, at, b"too little room"),
        _ => put_from_4(out, at, number, a, b, c, d),
    }
}
