// The cases of calls that begin with a cost table or with a link table, and of the links that a team shares. Each function reads the
// arguments, makes the call, and prints what it answers and leaves.
#![tactic(auto)]

pub mod cost_cases;
pub mod link_cases;
pub mod team_cases;
