// The refusals of an event: an image leaves, named by its number, counted from 1.
#![tactic(auto)]

ghost use Rattle.std.specs.Prelude.{◌≡◌, ◌≤◌};
ghost use Rattle.events.specs.Checks.{event_check};

use ground::Refusal;

// Refusal 8 for an unknown image, then 1 if two would be left.
pub fn check_event(n: usize, e: usize) -> Result<(), Refusal>
    requires { 3 ≤ n }
    ensures { result ≡ event_check n e }
{
    ground::refuse_if(ground::is_outside(1, n, e), 8, 0, 0)?;
    theory::check_images(n - 1)
}
