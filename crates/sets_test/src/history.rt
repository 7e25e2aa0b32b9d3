// The forty additions: their confRevs and sets, and how each is answered. The sets that are taken have
// rows from 0 on; row 32 is that of the thirty-third, and row 33 has a confRev that is never held.
ghost use Rattle.std.specs.Prelude.{◌<◌};

use crate::draw::draw;
use rt_services::{Reason, SavDataSetConfig};
use std::array;

pub const ADDITIONS: usize = 40;

pub const ROWS: usize = 34;

// The confRev of a row: 0, the powers of two, and 3. No From: a row is a plain number.
pub fn revision_of(row: usize) -> u32 {
    match row {
        0 => 0,
        1..=32 => 1 << (row - 1),
        _ => 3,
    }
}

// The channels of a row's set: other ones than those of the rows beside it.
pub fn channels_of(row: usize) -> usize
    ensures { result < 25 }
{
    row % 25 * 7 % 25
}

// A set whose scale factors are drawn of a stream: whole numbers of 16 bits.
fn set_with(stream: u32, channels: usize) -> SavDataSetConfig {
    SavDataSetConfig {
        channels,
        scale_factor: array::from_fn(|i| f32::from((draw(stream, i as u32) / 65536) as u16)),
    }
}

// A row's set.
pub fn set_of(row: usize) -> SavDataSetConfig {
    set_with((row % 64) as u32, channels_of(row))
}

// Why addition k is refused, if it is.
pub fn refusal_of(k: usize) -> Option<Reason> {
    match k {
        13 | 18 | 38 => Some(Reason::TooManyChannels),
        3 | 8 | 23 | 37 | 39 => Some(Reason::SetNotAdded),
        _ => None,
    }
}

// The row of addition k where so many sets are held: that of the next set, but for an equal confRev
// (3, 18, 23 and 39) and for a lower one that isn't held (8).
pub fn row_of(k: usize, held: usize) -> usize {
    match k {
        3 => 2,
        8 => 33,
        18 => 14,
        23 => 4,
        39 => 0,
        _ => held,
    }
}

// The set of addition k, of a row: the row's where it is taken, else one with other channels and
// factors.
pub fn set(k: usize, row: usize) -> SavDataSetConfig {
    let channels = match refusal_of(k) {
        None => return set_of(row),
        Some(Reason::TooManyChannels) => 25,
        Some(_) => (channels_of(row) + 5) % 25,
    };
    set_with((64 + k % 64) as u32, channels)
}
