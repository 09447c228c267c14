// The order around the tree: from first to last through all images. Images are counted from 0 below the public call.
#![tactic(auto)]

ghost use Rattle.std.specs.Prelude.{◌≡◌};
ghost use Rattle.ground.specs.Outcomes.{Left};
ghost use Rattle.theory.specs.Tables.{limit};
ghost use Rattle.order.specs.Outcome.{bad_ends, order_checks, order_outcome};

use ground::Refusal;
use tables::Costs;

// Whether first or last is none of the images 1 to n, or both are the same.
fn is_bad_ends(n: usize, first: usize, last: usize) -> bool
    ensures { result ≡ bad_ends n first last }
{
    ground::is_outside(1, n, first) || ground::is_outside(1, n, last) || first == last
}

// Refusals 1, 2, 3, 4, 5, 6, 20, 8.
#[tactic(auto, unfolding(crate::specs::Outcome::order_checks))]
fn check_order(n: usize, t: &[u32], first: usize, last: usize, room: usize) -> Result<(), Refusal>
    ensures { result ≡ order_checks limit n t.now first last room }
{
    tables::check_size(n, t)?;
    ground::refuse_if(room < n, 3, 0, 0)?;
    tables::check_costs(theory::LIMIT, n, t)?;
    ground::refuse_if(is_bad_ends(n, first, last), 8, 0, 0)
}

// The order around the tree of a well-formed table, from first to last, images 1 to n: n places of out, or the refusal. Everything is
// checked before the first store. No ring is shorter than what it leaves, where the table is an accepted one: specs/Promises.antt.
#[tactic(auto, using(crate::proofs::Laws::Asked::passed_asked, crate::proofs::Promises::ways_out))]
pub fn order(
    n: usize,
    t: &[u32],
    first: usize,
    last: usize,
    out: &mut [u32],
) -> Result<usize, Refusal>
    ensures { Left (order_outcome limit n t.now first last out.old) result out.new }
{
    check_order(n, t, first, last, out.len())?;
    ordering::write_order(&Costs { n, entries: t }, first - 1, last - 1, out);
    Ok(n)
}
