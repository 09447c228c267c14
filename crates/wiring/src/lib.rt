// Whether some wiring gives a cost table, by the four-point condition. Images are counted from 0.
#![tactic(auto)]

ghost use Rattle.std.specs.Prelude.{◌≡◌, ◌+◌, ◌<◌, ltb};
ghost use Rattle.theory.specs.FourPoint.{times_largest, fails, four};
ghost use Rattle.tables.specs.Entries.{costs_in};
ghost use Rattle.wiring.specs.Check.{wiring_check};
ghost use Rattle.wiring.specs.Once.{above};
ghost use Rattle.wiring.specs.Scan.{four_check, last_scan, third_scan};

use ground::Refusal;
use tables::Costs;

// Whether x is above both others.
fn is_above(x: u32, y: u32, z: u32) -> bool
    ensures { result ≡ above x y z }
{
    y < x && z < x
}

// Whether the largest of three numbers occurs once only.
pub fn is_once(x: u32, y: u32, z: u32) -> bool
    ensures { result ≡ ltb (times_largest x y z) 2 }
{
    is_above(x, y, z) || is_above(y, x, z) || is_above(z, x, y)
}

// Whether the images 0, j, k, l fail the condition.
fn is_failing(t: &Costs<'_>, j: usize, k: usize, l: usize) -> bool
    requires { (j < t.now.n) × (k < t.now.n) × (l < t.now.n) }
    ensures { result ≡ fails (costs_in t.now) (four 0 j k l) }
{
    let x = t.entry(0, j) + t.entry(k, l);
    let y = t.entry(0, k) + t.entry(j, l);
    let z = t.entry(0, l) + t.entry(j, k);
    is_once(x, y, z)
}

// Refusal 7 for the images 0, j, k, l.
fn check_four(t: &Costs<'_>, j: usize, k: usize, l: usize) -> Result<(), Refusal>
    requires { (j < t.now.n) × (k < t.now.n) × (l < t.now.n) }
    ensures { result ≡ four_check (costs_in t.now) 0 j k l }
{
    if is_failing(t, j, k, l) {
        return Err(Refusal {
            number: 7,
            a: 1,
            b: j + 1,
            c: k + 1,
            d: l + 1,
        });
    }
    Ok(())
}

// Refusal 7 for the fours that begin with 0, j, k.
#[tactic(auto, using(ground::specs::Laws::Lowest::in_turn), unfolding(crate::specs::Scan::last_scan))]
fn scan_last(t: &Costs<'_>, j: usize, k: usize) -> Result<(), Refusal>
    requires { (j < t.now.n) × (k < t.now.n) }
    ensures { result ≡ last_scan (costs_in t.now) t.now.n 0 j k }
{
    for l in k..t.n {
        check_four(t, j, k, l)?;
    }
    Ok(())
}

// Refusal 7 for the fours that begin with 0, j.
#[tactic(auto, using(ground::specs::Laws::Lowest::in_turn), unfolding(crate::specs::Scan::third_scan))]
fn scan_third(t: &Costs<'_>, j: usize) -> Result<(), Refusal>
    requires { j < t.now.n }
    ensures { result ≡ third_scan (costs_in t.now) t.now.n 0 j }
{
    for k in j..t.n {
        scan_last(t, j, k)?;
    }
    Ok(())
}

// Refusal 7 at the first of all fours i ≤ j ≤ k ≤ l that fails. It looks only at those that begin with image 0: where none of
// them fails, none fails at all (Law G), so some n³/6 tests do for n⁴/24.
#[tactic(auto, using(crate::proofs::Laws::Scan::in_turn_decided), unfolding(crate::specs::Scan::second_scan))]
pub fn check_wiring(t: &Costs<'_>) -> Result<(), Refusal>
    ensures { result ≡ wiring_check (costs_in t.now) t.now.n }
{
    for j in 0..t.n {
        scan_third(t, j)?;
    }
    Ok(())
}
