// The cases of calls that read stored bytes: the two readers, the choice, and a reader that is held. Each function reads the arguments, makes
// the call, and prints what it answers and leaves.
#![tactic(auto)]

pub mod byte_cases;
pub mod choice_cases;
pub mod reader_cases;
