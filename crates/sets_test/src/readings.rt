// What a reading answers and leaves in what it is lent, and what that should be.
use crate::frames::{Change, Kind};
use rt_services::{Reason, Refusal, SavDataSetConfig};
use std::num::f32_to_bits_with_nan;

// The numbers and octets of a description, and the samples.
// Counts and quality words are apart, as every reading is lent them.
// readings_test has the same: a crate for these lines would be longer than they are.
#[derive(Clone, Copy, PartialEq)]
pub struct Arrays {
    pub numbers: [u32; layout::MAX_NUMBERS],
    pub octets: [u8; layout::MAX_OCTETS],
    pub counts: [i32; SavDataSetConfig::MAX_SAMPLES],
    pub words: [u32; SavDataSetConfig::MAX_SAMPLES],
}

impl Arrays {
    // As they are lent.
    pub const LENT: Arrays = Arrays {
        numbers: [77; layout::MAX_NUMBERS],
        octets: [77; layout::MAX_OCTETS],
        counts: [77; SavDataSetConfig::MAX_SAMPLES],
        words: [77; SavDataSetConfig::MAX_SAMPLES],
    };
}

// A data set: its channels, and the bits of each scale factor.
// The factors are in an array of fixed length, as in the record of a data set.
#[derive(Clone, Copy, PartialEq)]
pub struct SetBits {
    channels: usize,
    scales: [u32; SavDataSetConfig::MAX_CHANNELS],
}

impl From<SavDataSetConfig> for SetBits {
    fn from(set: SavDataSetConfig) -> SetBits {
        SetBits {
            channels: set.channels,
            scales: set.scale_factor.map(|x| f32_to_bits_with_nan(x)),
        }
    }
}

// A refusal, or none; the set handed back; and what is in the arrays.
#[derive(Clone, Copy, PartialEq)]
pub struct Reading {
    pub answer: Result<(), Refusal>,
    pub set: SetBits,
    pub arrays: Arrays,
}

impl Reading {
    // Why it was refused, if it was.
    pub fn refusal(&self) -> Option<Reason> {
        self.answer.err().map(|refusal| refusal.reason)
    }
}

// The answer that is expected to a frame of a kind, where ordinary reading answers so: it may be
// refused before the confRev of its first ASDU is known, or have no ASDU, or two confRevs.
fn answer(kind: Kind, is_held: bool, ordinary: Result<(), Refusal>) -> Result<(), Refusal> {
    let is_early = matches!(
        kind.change,
        Change::InRevision | Change::BeforeRevision | Change::BadLength
    );
    if is_early {
        return ordinary;
    }
    if kind.change == Change::NoAsdu || !is_held {
        return Err(Reason::NoSet.at(0));
    }
    ordinary?;
    if kind.other.is_some() {
        return Err(Reason::OtherConfRev.at(0));
    }
    Ok(())
}

// The reading of a frame of a kind that is expected where its row is held or not: from ordinary reading
// with the set of the frame's row. A refusal leaves the arrays, and hands back such a set.
pub fn expected(
    kind: Kind,
    is_held: bool,
    ordinary: Reading,
    refused: SavDataSetConfig,
) -> Reading {
    match answer(kind, is_held, ordinary.answer) {
        Ok(()) => ordinary,
        refusal => Reading {
            answer: refusal,
            set: SetBits::from(refused),
            arrays: Arrays::LENT,
        },
    }
}
