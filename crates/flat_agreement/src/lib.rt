// What a call of the static library answers; in specs/, when two flat descriptions are equal, and in
// proofs/ demand 3 of the calls that take and fill them.
#![tactic(auto)]

// The number of a refusal, or 0; and what stands beside it: its place, or a size or count.
// Two numbers and no Result, as in the C interface, of whose calls the contracts speak.
#[derive(Clone, Copy)]
pub struct Answer {
    pub number: usize,
    pub beside: usize,
}
