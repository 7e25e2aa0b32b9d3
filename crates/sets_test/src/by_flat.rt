// A frame read by the calls that answer into flat arrays.
use crate::readings::{Arrays, Reading, SetBits};
use rt_services::{Refusal, SavDataSetConfig};
use set_store::DataSets;

// The set that is lent to be written.
pub const LENT_SET: SavDataSetConfig = SavDataSetConfig {
    channels: 77,
    scale_factor: [77.5; SavDataSetConfig::MAX_CHANNELS],
};

// A reading that is lent a set, and so many counts and quality words.
fn reading<F>(mut set: SavDataSetConfig, room: usize, read: F) -> Reading
where
    F: FnOnce(
        &mut SavDataSetConfig,
        &mut [u32],
        &mut [u8],
        &mut [i32],
        &mut [u32],
    ) -> Result<(), Refusal>,
    requires { F.IsAlwaysCallable read }
{
    let mut arrays = Arrays::LENT;
    let n = room.min(SavDataSetConfig::MAX_SAMPLES);
    let answer = read(
        &mut set,
        &mut arrays.numbers,
        &mut arrays.octets,
        &mut arrays.counts[..n],
        &mut arrays.words[..n],
    );
    Reading {
        answer,
        set: SetBits::from(set),
        arrays,
    }
}

// A frame by its confRev, with room for so many counts and quality words.
pub fn by_sets(frame: &[u8], room: usize, store: &DataSets) -> Reading {
    reading(LENT_SET, room, |set, numbers, octets, counts, words| {
        flat_by_sets::read_by_sets(
            frame,
            &store.numbers,
            &store.scales,
            &mut set.channels,
            &mut set.scale_factor,
            numbers,
            octets,
            counts,
            words,
        )
    })
}

// A frame by ordinary reading with a set.
pub fn ordinary(frame: &[u8], room: usize, set: SavDataSetConfig) -> Reading {
    reading(set, room, |set, numbers, octets, counts, words| {
        flat_decode::read_frame(frame, set.channels, numbers, octets, counts, words)
    })
}
