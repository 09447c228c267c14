// Writing a stored cost table. The functions below the public calls take the form as an argument. Images are counted from 0.
#![tactic(auto)]

ghost use Rattle.std.specs.Prelude.{length};
ghost use Rattle.ground.specs.Outcomes.{Left};
ghost use Rattle.ground.specs.Refusals.{room_check};
ghost use Rattle.cost_forms.specs.Form.{cost_form, cost_used};
ghost use Rattle.cost_forms.specs.Sizes.{Small};
ghost use Rattle.cost_writer.specs.Writing.{stored_if, write_outcome};

use bits::{Edition, Form};
use ground::Refusal;
use tables::Costs;

// The table in the form, or refusal 3.
#[tactic(auto, using(cost_forms::specs::Laws::Sizes::end_le))]
fn store_costs(form: Form, t: &Costs<'_>, out: &mut [u8]) -> Result<usize, Refusal>
    requires { Small form t.now.n }
    ensures { Left (stored_if (room_check (cost_used form t.now.n) (length out.old)) form t.now.n t.now.entries.now out.old) result
        out.new }
{
    let end = cost_forms::row_at(form, t.n, t.n);
    ground::refuse_if(out.len() < (end + 7) / 8, 3, 0, 0)?;
    Ok(cost_fields::put_form(form, t, out))
}

// The cost table t at the front of the lent bytes, in the form that is asked for; the answer is the bytes used. No other byte is written.
#[tactic(auto, using(cost_limits::proofs::Passed::passed_both_table))]
pub fn write_costs(edition: Edition, n: usize, t: &[u32], out: &mut [u8]) -> Result<usize, Refusal>
    ensures { Left (write_outcome (cost_form edition) n t.now out.old) result out.new }
{
    let form = cost_forms::form_of(edition);
    cost_limits::check_costs(form.limit, n, t)?;
    store_costs(form, &Costs { n, entries: t }, out)
}
