// Makes calls by the scheduler's methods, each by its own name, and holds answer and whole state against those of `apply`. Then
// runs block and tick on a lent state beside the methods by value: first cases of document 01, whose answers are printed, then
// a long list of calls by value with a lent block and a lent tick between every two.
//
//   methods   each method by its name
//   lent      the cases on a lent state, and that the comparison notices a difference
//   rounds    the long list
//   begun     the schedulers that they begin from
//   outcome   a block and a tick, both ways, and whether two replies are the same
//   show      what is printed
#![tactic(auto)]

mod begun;
mod lent;
mod methods;
mod outcome;
mod rounds;
mod show;

use lent::{cases, told_apart};
use methods::methods;
use rounds::rounds;

fn main(rt: HostRuntime) {
    methods(&rt);
    cases(&rt);
    told_apart(&rt);
    rounds(&rt);
}
