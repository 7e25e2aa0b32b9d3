// No code: the definitions of specs/, which the contracts of the other crates cite.
#![tactic(auto)]
