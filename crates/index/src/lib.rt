// The index of a division, one image more at a time. Images are counted from 0.
#![tactic(auto)]

ghost use Rattle.std.specs.Prelude.{◌≡◌, ◌*◌, ◌≤◌, pos, ◌-ℤ◌};
ghost use Rattle.ground.specs.Bits.{bit};
ghost use Rattle.theory.specs.FarSides.{FarSide};
ghost use Rattle.theory.specs.Index.{shifted};
ghost use Rattle.theory.specs.Tables.{limit};
ghost use Rattle.tables.specs.Entries.{costs_in};
ghost use Rattle.index.specs.Call.{bad_far_side, index_check, index_answer};

use ground::Refusal;
use tables::Costs;

// The index over all n images, with two limits added.
#[tactic(auto, using(crate::specs::Laws::Grown::turns))]
fn shifted_index(t: &Costs<'_>, s: u64) -> u32
    requires { FarSide t.now.n s }
    ensures { result ≡ shifted limit (costs_in t.now) t.now.n (bit s) }
{
    let mut v = theory::CAP;
    for k in 1..t.n {
        v = index_more::one_more(t, s, k, v);
    }
    v
}

// Whether s is no far side of n images. At 64 images nothing is beyond n, and no shift by 64 is made.
#[tactic(auto, using(ground::specs::Laws::Shifts::beyond, ground::specs::Laws::Shifts::all_within))]
fn is_bad_far_side(n: usize, s: u64) -> bool
    requires { n ≤ 64 }
    ensures { result ≡ bad_far_side n s }
{
    s == 0 || ground::side(s, 0) == 1 || (n < 64 && 0 < s >> n)
}

// The checks of the index call, in their order.
fn check_index(n: usize, t: &[u32], s: u64) -> Result<(), Refusal>
    ensures { result ≡ index_check limit n t.now s }
{
    tables::check_size(n, t)?;
    tables::check_costs(theory::LIMIT, n, t)?;
    ground::refuse_if(is_bad_far_side(n, s), 12, 0, 0)
}

// The index itself, from the index with two limits added.
fn signed(v: u32) -> i64
    ensures { result ≡ pos v -ℤ pos (2 * limit) }
{
    ground::gap(v, 2 * theory::LIMIT)
}

// The index of the division with the far side s: above 0 as far as all choices of images support it, below 0 as far as one speaks
// against it.
#[tactic(auto, using(crate::proofs::Laws::Value::call_laws))]
pub fn index(n: usize, t: &[u32], s: u64) -> Result<i64, Refusal>
    ensures { result ≡ index_answer limit n t.now s }
{
    check_index(n, t, s)?;
    Ok(signed(shifted_index(&Costs { n, entries: t }, s)))
}
