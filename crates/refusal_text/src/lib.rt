// The text of a refusal, for those who read it: words, the refusal's places, and in front the table that it is about.
#![tactic(auto)]

ghost use Rattle.std.specs.Prelude.{◌+◌, ◌≤◌, length};
ghost use Rattle.ground.specs.Outcomes.{Left};
ghost use Rattle.text.specs.Putting.{Put};
ghost use Rattle.refusal_text.specs.Text.{about_table, refusal_text_outcome};

use ground::Refusal;

// The table that the refusal is about, where it is about one.
#[tactic(auto, using(crate::specs::Laws::About::by_number, text::proofs::Laws::Lengths::longest, text::specs::Laws::Putting::over_nothing))]
fn put_table(out: &mut [u8], at: usize, number: usize, table: usize) -> usize
    requires { at + 28 ≤ length out.old }
    ensures { Put (about_table number table) at out.old result out.new }
{
    if number == 0 || table == 0 {
        return at;
    }
    let p = text::put_word(out, at, b"table");
    let q = text::put_field(out, p, table as u64);
    text::put_word(out, q, b": ")
}

// The text of the refusal of that number, about that table, 0 for none, with those places, and one zero byte behind it, at the front of the
// lent bytes. The answer is all bytes written, the zero byte among them. No other byte is written.
#[tactic(auto, using(crate::specs::Laws::About::by_number, sayings::specs::Laws::Lengths::said_most))]
pub fn refusal_text(
    number: usize,
    table: usize,
    a: usize,
    b: usize,
    c: usize,
    d: usize,
    out: &mut [u8],
) -> Result<usize, Refusal>
    ensures { Left (refusal_text_outcome number table a b c d out.old) result out.new }
{
    ground::refuse_if(out.len() < 192, 3, 0, 0)?;
    let p = put_table(out, 0, number, table);
    let q = sayings::put_said(out, p, number, a, b, c, d);
    Ok(text::put_byte(out, q, 0))
}
