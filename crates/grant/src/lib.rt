// No code: the definitions of granted reading in specs/, which the contracts of other crates cite,
// and what is proved of them.
#![tactic(auto)]
