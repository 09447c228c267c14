// The settled examples of document 01, proved of the definitions in specs/Claim.antt. The code says only how many they are.
#![tactic(auto)]

ghost use Rattle.std.specs.Prelude.{◌≡◌, length};
ghost use Rattle.settled.specs.Examples.{settled};

// How many examples the list has.
pub fn examples() -> usize
    ensures { result ≡ length settled }
{
    11
}
