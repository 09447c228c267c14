// Words, and the places of a refusal behind them; and the two refusals whose places decide their words.
#![tactic(auto)]

ghost use Rattle.std.specs.Prelude.{◌++◌, ◌∷◌, [], ◌+◌, ◌≤◌, length};
ghost use Rattle.text.specs.Fields.{fields};
ghost use Rattle.text.specs.Putting.{Put};
ghost use Rattle.phrases.specs.Said.{saying_text};
ghost use Rattle.phrases.specs.ByPlace.{above_old, bad_row};

// Words, and one place behind them.
#[tactic(auto, using(text::proofs::Laws::Lengths::longest))]
pub fn put_one(out: &mut [u8], at: usize, words: &[u8], a: usize) -> usize
    requires { at + length words.now + 21 ≤ length out.old }
    ensures { Put (words.now ++ fields (a ∷ [])) at out.old result out.new }
{
    let p = text::put_word(out, at, words);
    text::put_field(out, p, a as u64)
}

// Words, and two places behind them.
#[tactic(auto, using(text::proofs::Laws::Lengths::longest))]
pub fn put_two(out: &mut [u8], at: usize, words: &[u8], a: usize, b: usize) -> usize
    requires { at + length words.now + 42 ≤ length out.old }
    ensures { Put (words.now ++ fields (a ∷ b ∷ [])) at out.old result out.new }
{
    let p = text::put_word(out, at, words);
    let q = text::put_field(out, p, a as u64);
    text::put_field(out, q, b as u64)
}

// Words, and three places behind them.
#[tactic(auto, using(text::proofs::Laws::Lengths::longest))]
pub fn put_three(out: &mut [u8], at: usize, words: &[u8], a: usize, b: usize, c: usize) -> usize
    requires { at + length words.now + 63 ≤ length out.old }
    ensures { Put (words.now ++ fields (a ∷ b ∷ c ∷ [])) at out.old result out.new }
{
    let p = text::put_word(out, at, words);
    let q = text::put_field(out, p, a as u64);
    let s = text::put_field(out, q, b as u64);
    text::put_field(out, s, c as u64)
}

// Words, and all four places behind them.
#[tactic(auto, using(text::proofs::Laws::Lengths::longest))]
pub fn put_four(
    out: &mut [u8],
    at: usize,
    words: &[u8],
    a: usize,
    b: usize,
    c: usize,
    d: usize,
) -> usize
    requires { at + length words.now + 84 ≤ length out.old }
    ensures { Put (words.now ++ fields (a ∷ b ∷ c ∷ d ∷ [])) at out.old result out.new }
{
    let p = text::put_word(out, at, words);
    let q = text::put_field(out, p, a as u64);
    let s = text::put_field(out, q, b as u64);
    let t = text::put_field(out, s, c as u64);
    text::put_field(out, t, d as u64)
}

// Refusal 12, whose row is 0 where the index call gives it.
#[tactic(auto, using(crate::proofs::ByPlace::without_row, crate::proofs::ByPlace::with_row), unfolding(text::specs::Words::bytes_of))]
pub fn put_bad_row(out: &mut [u8], at: usize, row: usize) -> usize
    requires { at + 163 ≤ length out.old }
    ensures { Put (saying_text (bad_row row)) at out.old result out.new }
{
    if row == 0 {
        return text::put_word(out, at, b"bad far side or bad row");
    }
    put_one(out, at, b"bad far side or bad row: row", row)
}

// Refusal 17, whose column is 0 where a link table's row has the number.
pub fn put_above_old(out: &mut [u8], at: usize, row: usize, column: usize) -> usize
    requires { at + 163 ≤ length out.old }
    ensures { Put (saying_text (above_old row column)) at out.old result out.new }
{
    if column == 0 {
        return put_one(out, at, b"number above the old limits: row", row);
    }
    put_two(
        out,
        at,
        b"number above the old limits: row and column",
        row,
        column,
    )
}
