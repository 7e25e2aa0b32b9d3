// One generated frame, whose lengths after 87 may have been changed, and how ordinary and checked
// reading answer it.
use crate::draw::{below, draw};
use crate::readings::reading;
use crate::walk::{Walked, walk};
use crate::{Arrays, Frame, Reading, frames};
use rt_services::{Reason, Refusal, SavDataSetConfig};

// How a frame is answered. Both accept it, with the same in the arrays, where every length fits; checked
// reading refuses it 13 in the first ASDU, or in a later one, where ordinary reading accepts it; both
// refuse it with one number and place; or any other way, or the writer refuses it. A refusal leaves the
// arrays.
#[derive(Clone, Copy)]
pub enum Class {
    Accepted,
    First,
    Later,
    Refused,
    Wrong,
}

// How checked reading has to answer, and the class of a frame that it answers so.
fn expected(ordinary: &Reading, walked: &Walked) -> (Reading, Class) {
    let refused = |answer| Reading {
        answer: Err(answer),
        arrays: Arrays::LENT,
    };
    match (ordinary.answer, walked.misfit) {
        (Err(answer), _) => (refused(answer), Class::Refused),
        (Ok(()), None) => (*ordinary, Class::Accepted),
        (Ok(()), Some((0, place))) => (refused(Reason::LengthsDiffer.at(place)), Class::First),
        (Ok(()), Some((_, place))) => (refused(Reason::LengthsDiffer.at(place)), Class::Later),
    }
}

// The frame with another octet before a place, where there is one.
fn change(mut frame: Frame, place: usize, octet: u8) -> Frame {
    if let Some(at) = place.checked_sub(1) {
        if let Some(before) = frame.octets.get_mut(at) {
            *before = octet;
        }
    }
    frame
}

// Frame k: with another octet in any place, or as the last octet of the length before the samples of
// one of the first four ASDUs, or nowhere; in half of those with another length, in the length before
// the first samples besides.
fn changed(k: u32, channels: u32) -> Result<Frame, Refusal> {
    let frame = frames::write(k, channels, 0xffffff, 0)?;
    let places = walk(frame.first(frame.size), channels as usize).places;
    let octet = (draw(k, 42) / 65536 % 256) as u8;
    let of_length = places[below(k, 41, 4) as usize];
    Ok(match below(k, 40, 6) {
        0 => change(frame, below(k, 43, 1600) as usize + 1, octet),
        1 => change(frame, of_length, octet),
        2 => change(change(frame, places[0], octet / 2), of_length, octet),
        _ => frame,
    })
}

// The number of channels that is asked for: that of the frame, or another.
fn asked(k: u32, channels: u32) -> usize {
    if below(k, 44, 8) == 0 {
        return below(k, 45, 26) as usize;
    }
    channels as usize
}

// How many counts and quality words there is room for: those of two ASDUs of eight channels, or of
// any frame.
fn room(k: u32) -> usize {
    if below(k, 46, 8) == 0 {
        return 16;
    }
    SavDataSetConfig::MAX_SAMPLES
}

// Frame k.
pub fn answer(k: u32) -> Class {
    let channels = below(k, 1, 25);
    let Ok(frame) = changed(k, channels) else {
        return Class::Wrong;
    };
    let s = frame.first(frames::kept(k, frame.size));
    let asked = asked(k, channels);
    let ordinary = reading(room(k), |numbers, octets, counts, words| {
        flat_decode::read_frame(s, asked, numbers, octets, counts, words)
    });
    let checked = reading(room(k), |numbers, octets, counts, words| {
        flat_checked::read_checked(s, asked, numbers, octets, counts, words)
    });
    let (expected, class) = expected(&ordinary, &walk(s, asked));
    if checked == expected {
        return class;
    }
    Class::Wrong
}
