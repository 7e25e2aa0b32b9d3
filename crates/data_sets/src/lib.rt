// No code: the definitions of data sets by confRev in specs/, which the contracts of other crates
// cite, and what is proved of them.
#![tactic(auto)]
