// The meaning of everything is in specs/. Here stand only the limits, the check that every call begins with, and the one test
// that a definition names as code.
#![tactic(auto)]

ghost use Rattle.std.specs.Prelude.{◌≡◌};
ghost use Rattle.theory.specs.Checks.{images_check};
ghost use Rattle.theory.specs.FarSides.{inner};

use ground::Refusal;

// The limit on an entry, `limit` of specs/Tables.antt; a doubled cost is at most twice as much.
pub const LIMIT: u32 = 8000000;

// The limit in document 01's stored forms, `old_limit` there.
pub const OLD_LIMIT: u32 = 1000000;

// What no value of a choice exceeds, two limits added to it: the start of every least value.
pub const CAP: u32 = 4 * LIMIT;

// Refusal 1.
pub fn check_images(n: usize) -> Result<(), Refusal>
    ensures { result ≡ images_check n }
{
    ground::refuse_if(ground::is_outside(3, 64, n), 1, n, 0)
}

// Whether the far side s is an inner division of n images, counted as its ones; otherwise it is some image's own link.
pub fn is_inner(n: usize, s: u64) -> bool
    ensures { result ≡ inner n s }
{
    let count = u64::count_ones(s) as usize;
    if count < 2 {
        return false;
    }
    count + 2 <= n
}
