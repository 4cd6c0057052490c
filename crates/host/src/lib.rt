// What a host learns from each call, and theorems only: see specs/Host.antt, specs/Worked.antt and proofs/. They stand apart from the calls so that
// a wrong version of a call is tried without them.
#![tactic(auto)]
