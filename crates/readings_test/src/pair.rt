// One pair of frames, and how granted reading answers both.
use crate::draw::{below, draw};
use crate::readings::reading;
use crate::{Frame, Reading, frames};
use rt_services::SavDataSetConfig;

// How a pair is answered. Its octets don't differ; or they do, and both frames are accepted, or both
// refused with one number and place, with the same in the arrays; or they are answered otherwise, or
// the writer refuses one.
#[derive(Clone, Copy)]
pub enum Class {
    Same,
    Accepted,
    Refused,
    Differ,
}

// Granted reading of octets.
fn granted(s: &[u8], channels: usize, mask: u32) -> Reading {
    reading(
        SavDataSetConfig::MAX_SAMPLES,
        |numbers, octets, counts, words| {
            flat_granted::read_granted(s, channels, mask, numbers, octets, counts, words)
        },
    )
}

// How two frames of one length are answered, of which these octets are kept.
fn class_of(one: &[u8], other: &[u8], channels: usize, mask: u32) -> Class {
    if one == other {
        return Class::Same;
    }
    let a = granted(one, channels, mask);
    if a != granted(other, channels, mask) {
        return Class::Differ;
    }
    match a.answer {
        Ok(()) => Class::Accepted,
        Err(_) => Class::Refused,
    }
}

// Pair k.
pub fn answer(k: u32) -> Class {
    let channels = below(k, 1, 25);
    let mask = draw(k, 2);
    let one = frames::write(k, channels, mask, draw(k, 6));
    let other = frames::write(k, channels, mask, draw(k, 7));
    let (Ok(one), Ok(other)) = (one, other) else {
        return Class::Differ;
    };
    if one.size != other.size {
        return Class::Differ;
    }
    let kept = frames::kept(k, one.size);
    class_of(one.first(kept), other.first(kept), channels as usize, mask)
}
