// One addition, to a store in a record and to one in two arrays; and the search for a row's set.
use crate::history;
use crate::readings::SetBits;
use rt_services::{Reason, Refusal, SavDataSetConfig};
use set_store::DataSets;

// The number of sets that are held, or the refusal.
type Answer = Result<usize, Refusal>;

// The store after an addition, how many sets it should hold, why it was refused, and whether
// both calls answer as expected and leave the same store.
#[derive(Clone, Copy)]
pub struct Step {
    pub store: DataSets,
    pub held: usize,
    pub refusal: Option<Reason>,
    pub is_right: bool,
}

// Whether a set is added to a store in two arrays as expected: answered so, and the store left so.
fn is_added(
    store: DataSets,
    conf_rev: u32,
    set: SavDataSetConfig,
    expected: Answer,
    after: &DataSets,
) -> bool {
    let mut numbers = store.numbers;
    let mut scales = store.scales;
    let answer = set_store::add_to(&mut numbers, &mut scales, conf_rev, set);
    answer == expected && numbers == after.numbers && scales == after.scales
}

// Addition k, to a store that holds so many sets.
pub fn add(k: usize, store: DataSets, held: usize) -> Step {
    let row = history::row_of(k, held);
    let conf_rev = history::revision_of(row);
    let set = history::set(k, row);
    let expected = match history::refusal_of(k) {
        Some(reason) => Err(reason.at(0)),
        None => Ok(held.saturating_add(1)),
    };
    let mut after = store;
    let answer = after.add(conf_rev, set);
    Step {
        store: after,
        held: expected.unwrap_or(held),
        refusal: answer.err().map(|refusal| refusal.reason),
        is_right: answer == expected && is_added(store, conf_rev, set, expected, &after),
    }
}

// A row's set in a store.
pub fn find(row: usize, store: &DataSets) -> Option<SavDataSetConfig> {
    store.find(history::revision_of(row))
}

// Whether what is found for a row is right where so many rows are held.
pub fn is_right(found: Option<SavDataSetConfig>, row: usize, held: usize) -> bool {
    let expected = (row < held).then_some(history::set_of(row));
    found.map(|set| SetBits::from(set)) == expected.map(|set| SetBits::from(set))
}
