// Document 01's rules: what every call makes of the scheduler's state. There are no functions here, only types, definitions
// over them, and the laws of those definitions.
//
//   call     Call: every call and query, with its arguments
//   answer   Answer: status, the pick made, and the value; plans
//
// specs/ has the state and the rules as definitions, in document 01's order: they are what a reader has to believe, and what the
// functions of the crates above are proved equal to. proofs/ has the laws that hold of them for all arguments.
#![tactic(auto)]

mod answer;
mod call;

pub use answer::{Answer, ContextSwitchPlan, ContextSwitchTarget, Pick, Value};
pub use call::Call;
