// What is claimed of the whole: of every list of calls, made by value, on a lent state, as lines of text or by a host. There are
// no functions here: specs/ has what is claimed, proofs/ that it holds, from the contracts of the crates below.
#![tactic(auto)]
