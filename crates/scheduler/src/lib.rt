// The scheduler of document 01: who runs on which core, and for how long.
//
//   scheduler   QoSScheduler: the state, by value; new; apply, which does any call
//   waking      create, affinity, terminate, block, wake, enqueue
//   picking     rule P, and schedule; how it is told who is to run
//   ticking     tick, yield, handoff, plan
//   queries     what changes nothing
//   lent        block and tick on a lent state, which they change
//   answer      the two kinds of answer
//
// Every scheduler came from `new`, an accepted image or an earlier call: its ghost fields say that what it holds is accepted.
// So a call presumes nothing. It answers for all arguments, and ensures `Meets`: the whole answer and the whole state are what
// document 01's rule for it makes. The rules, with `Call` and `Answer` and their parts, are the crate below; these types are
// handed on here. Methods have the Rust's names and parameters, those too that only hand on: for core 0, or without cr3 and rsp0.
#![tactic(auto)]

mod answer;
mod lent;
mod picking;
mod queries;
mod scheduler;
mod ticking;
mod waking;

pub use rules::{Answer, Call, ContextSwitchPlan, ContextSwitchTarget, Pick, Value};
pub use scheduler::{NO_HOLDER, QoSScheduler, Reply};
