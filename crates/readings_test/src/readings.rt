// A reading of a frame into arrays of its own.
use crate::{Arrays, Reading};
use rt_services::{Refusal, SavDataSetConfig};

// A reading that is lent so many counts and quality words.
pub fn reading<F>(room: usize, read: F) -> Reading
where
    F: FnOnce(&mut [u32], &mut [u8], &mut [i32], &mut [u32]) -> Result<(), Refusal>,
    requires { F.IsAlwaysCallable read }
{
    let mut arrays = Arrays::LENT;
    let n = room.min(SavDataSetConfig::MAX_SAMPLES);
    let answer = read(
        &mut arrays.numbers,
        &mut arrays.octets,
        &mut arrays.counts[..n],
        &mut arrays.words[..n],
    );
    Reading { answer, arrays }
}
