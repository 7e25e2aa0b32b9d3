// Data sets under their confRevs, each addition higher than all held: the store in two arrays, and as
// a record of them.
#![tactic(auto)]

ghost use Rattle.std.specs.Prelude.{◌≡◌, [], ◌∷◌, ◌+◌, ◌*◌, ◌≤◌, ◌<◌};
ghost use Rattle.std.proofs.lemmas.List.Edits.{sets};
ghost use Rattle.definition.specs.Limits.{max_channels, max_sets};
ghost use Rattle.data_sets.specs.DataSets.{held_in, set_at, store_of, find};
ghost use Rattle.set_store.specs.Told.{empty_store, AddedTo};
ghost use Rattle.set_store.specs.Held.{above_all, position_in};

use rt_services::{Reason, Refusal, SavDataSetConfig};

// The numbers are how many sets are held, then confRev and channels of each; the scale factors are 24
// of each. Two arrays, and functions over them, since C lends a store as two arrays; so the place of a
// set is a number, below 32 by a plain clause, as are its channels, at most 24.
#[derive(Clone, Copy)]
pub struct DataSets {
    pub numbers: [u32; DataSets::NUMBERS],
    pub scales: [f32; DataSets::SCALES],
}

impl DataSets {
    pub const MAX_SETS: usize = 32;

    pub const NUMBERS: usize = 1 + DataSets::MAX_SETS * 2;

    pub const SCALES: usize = DataSets::MAX_SETS * SavDataSetConfig::MAX_CHANNELS;

    // A store that holds no set.
    pub fn empty() -> DataSets
        ensures { result ≡ empty_store }
    {
        DataSets {
            numbers: [0; DataSets::NUMBERS],
            scales: [0.0; DataSets::SCALES],
        }
    }

    // One more data set; the answer is how many sets are then held. A refusal leaves the store.
    pub fn add(&mut self, conf_rev: u32, set: SavDataSetConfig) -> Result<usize, Refusal>
        ensures { AddedTo conf_rev set self.old.numbers self.old.scales result self.new.numbers self.new.scales }
    {
        add_to(&mut self.numbers, &mut self.scales, conf_rev, set)
    }

    // The set under a confRev.
    pub fn find(&self, conf_rev: u32) -> Option<SavDataSetConfig>
        ensures { result ≡ find (store_of self.now.numbers self.now.scales) conf_rev }
    {
        let i = position(&self.numbers, conf_rev)?;
        Some(set_at(&self.numbers, &self.scales, i))
    }
}

// How many sets the store holds.
pub fn held(numbers: &[u32; DataSets::NUMBERS]) -> usize
    ensures { result ≡ held_in numbers.now }
{
    (numbers[0] as usize).min(DataSets::MAX_SETS)
}

// Whether a confRev is higher than all held: over places, since every second number is a confRev.
fn is_higher(numbers: &[u32; DataSets::NUMBERS], conf_rev: u32) -> bool
    ensures { result ≡ above_all numbers.now conf_rev }
{
    (0..held(numbers)).all(|i| numbers[1 + i * 2] < conf_rev)
}

// Which of the sets is that under a confRev.
pub fn position(numbers: &[u32; DataSets::NUMBERS], conf_rev: u32) -> Option<usize>
    ensures { result ≡ position_in numbers.now conf_rev }
{
    (0..held(numbers)).find(|i| numbers[1 + *i * 2] == conf_rev)
}

// How many channels set i has.
pub fn channels_at(numbers: &[u32; DataSets::NUMBERS], i: usize) -> u32
    requires { i < max_sets }
    ensures { result ≡ (set_at numbers.now [] i).1.channels }
{
    numbers[2 + i * 2]
}

// The scale factors of set i.
pub fn scales_at(
    scales: &[f32; DataSets::SCALES],
    i: usize,
    factors: &mut [f32; SavDataSetConfig::MAX_CHANNELS],
)
    requires { i < max_sets }
    ensures { factors.new ≡ sets factors.old 0 (set_at [] scales.now i).1.scale_factor }
{
    let at = i * SavDataSetConfig::MAX_CHANNELS;
    rt_services::copy_all(factors, &scales[at..at + SavDataSetConfig::MAX_CHANNELS]);
}

// Set i.
pub fn set_at(
    numbers: &[u32; DataSets::NUMBERS],
    scales: &[f32; DataSets::SCALES],
    i: usize,
) -> SavDataSetConfig
    requires { i < max_sets }
    ensures { result ≡ (set_at numbers.now scales.now i).1 }
{
    let mut scale_factor = [0.0; SavDataSetConfig::MAX_CHANNELS];
    scales_at(scales, i, &mut scale_factor);
    SavDataSetConfig {
        channels: channels_at(numbers, i) as usize,
        scale_factor,
    }
}

// Set i becomes this one, and is the last.
fn put_set(
    numbers: &mut [u32; DataSets::NUMBERS],
    scales: &mut [f32; DataSets::SCALES],
    i: usize,
    conf_rev: u32,
    set: SavDataSetConfig,
)
    requires { (i < max_sets) × (set.channels ≤ max_channels) }
    ensures { (numbers.new ≡ sets (sets numbers.old 0 ((i + 1) ∷ [])) (1 + i * 2) (conf_rev ∷ set.channels ∷ []))
        × (scales.new ≡ sets scales.old (i * max_channels) set.scale_factor) }
{
    numbers[0] = (i + 1) as u32;
    numbers[1 + i * 2] = conf_rev;
    numbers[2 + i * 2] = set.channels as u32;
    let at = i * SavDataSetConfig::MAX_CHANNELS;
    rt_services::copy_all(
        &mut scales[at..at + SavDataSetConfig::MAX_CHANNELS],
        &set.scale_factor,
    );
}

// One more data set; the answer is how many sets are then held. Refused as 8, then as 14; a refusal
// leaves the arrays.
pub fn add_to(
    numbers: &mut [u32; DataSets::NUMBERS],
    scales: &mut [f32; DataSets::SCALES],
    conf_rev: u32,
    set: SavDataSetConfig,
) -> Result<usize, Refusal>
    ensures { AddedTo conf_rev set numbers.old scales.old result numbers.new scales.new }
{
    if SavDataSetConfig::MAX_CHANNELS < set.channels {
        return Err(Reason::TooManyChannels.at(0));
    }
    let n = held(numbers);
    if !is_higher(numbers, conf_rev) || DataSets::MAX_SETS <= n {
        return Err(Reason::SetNotAdded.at(0));
    }
    put_set(numbers, scales, n, conf_rev, set);
    Ok(n + 1)
}
