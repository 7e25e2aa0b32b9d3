// The class of two answers of a reader. The Rust has no limits, and panics where this project refuses.
// Whether there is a VLAN tag and a whole header is worked out here again, so that the judge doesn't stand on what it judges.
use crate::answer::{Ours, Panic, Theirs, alike};
use crate::class::Class;
use crate::description::{Description, Pdu};
use rt_services::{Reason, Refusal, SavAsdu, SavDataSetConfig, SavPdu, Vlan};

// The octet at a place; 0 past the end.
fn octet(s: &[u8], at: usize) -> u8 {
    s.get(at).copied().unwrap_or(0)
}

// The number of two octets from a place on.
fn number(s: &[u8], at: usize) -> u16 {
    u16::from_be_bytes([octet(s, at), octet(s, at.saturating_add(1))])
}

// The octet so far before a place, or the first.
fn before(s: &[u8], place: usize, n: usize) -> u8 {
    octet(s, place.saturating_sub(n))
}

// Whether the content at a place is longer than a limit, by the length octets before it, in the form of one octet or of 81,
// of 82, or of 83.
fn is_longer(s: &[u8], place: usize, limit: u32) -> bool {
    let len = number(s, place.saturating_sub(2));
    let high = before(s, place, 3);
    if limit < len as u32 % 0x100 {
        true
    } else if high == 0x82 {
        limit < len as u32
    } else {
        before(s, place, 4) == 0x83 && limit < high as u32 * 0x1_0000 + len as u32
    }
}

// The place after the tag and the length at a place.
fn after_head(s: &[u8], at: usize) -> usize {
    let len = octet(s, at.saturating_add(1));
    let head = match len {
        0x81 => 3,
        0x82 => 4,
        0x83 => 5,
        _ => 2,
    };
    at.saturating_add(head)
}

// Whether noASDU, of so many octets at a place, is above its limit.
fn are_many(s: &[u8], place: usize, octets: u8) -> bool {
    match octets {
        0 => 0x80 <= octet(s, place),
        1 => SavPdu::MAX_ASDUS < octet(s, place) as usize,
        2 => SavPdu::MAX_ASDUS < number(s, place) as usize,
        _ => octets == 3,
    }
}

// Whether what stands at a place is above its limit: noASDU, security, svID or datSet.
fn is_above(s: &[u8], start: usize, place: usize) -> bool {
    let no_asdu = after_head(s, after_head(s, start));
    // The last of the length octets before noASDU says how many octets it has, at most three.
    let octets = before(s, no_asdu, 1);
    if place == no_asdu {
        return are_many(s, place, octets);
    }
    let next = no_asdu.saturating_add(octets as usize);
    if place == after_head(s, next) {
        return octet(s, next) == 0x81 && is_longer(s, place, SavPdu::MAX_SECURITY as u32);
    }
    is_longer(s, place, SavAsdu::MAX_TEXT as u32)
}

// Refused 4: what stands at the place is above its limit. Where the Rust refuses, it does so there or further on.
fn limit(s: &[u8], start: usize, theirs: Theirs, place: usize) -> Option<Class> {
    if !is_above(s, start, place) {
        return None;
    }
    match theirs {
        Theirs::Answered(_) => Some(Class::LimitAnswered),
        Theirs::Refused { place: further, .. } => (place <= further).then_some(Class::LimitRefused),
        _ => Some(Class::LimitPanicked),
    }
}

// Whether a place is that of the first content octet of refrTm, by the tag 84 and the length octets before it.
fn is_after_84(s: &[u8], place: usize) -> bool {
    if before(s, place, 2) == 0x84 {
        true
    } else if before(s, place, 3) == 0x84 {
        before(s, place, 2) == 0x81
    } else if before(s, place, 4) == 0x84 {
        before(s, place, 3) == 0x82
    } else {
        before(s, place, 5) == 0x84 && before(s, place, 4) == 0x83
    }
}

// Refused 1 where the Rust panics by a range: fewer than 8 octets of refrTm.
fn lacks_refr_tm(s: &[u8], place: usize) -> bool {
    s.len()
        .checked_sub(place)
        .is_some_and(|left| left < 8 && is_after_84(s, place))
}

// The Rust panics, by an index where an octet is past the end, and by a range or a copy at refrTm and where gmIdentity has
// more than 8 octets. The panic is what the Rust answers, and names no step to run.
fn panicked(s: &[u8], panic: Panic, ours: Refusal) -> Option<Class> {
    match (ours.reason, panic) {
        (Reason::GmIdentityTooLong, Panic::Range) => {
            is_longer(s, ours.place, 8).then_some(Class::PanicGmIdentity)
        }
        (Reason::EndsTooSoon, Panic::Index) => {
            (ours.place == s.len()).then_some(Class::PanicAtEnd)
        }
        (Reason::EndsTooSoon, _) => lacks_refr_tm(s, ours.place).then_some(Class::PanicRefrTm),
        _ => None,
    }
}

fn is_tagged(s: &[u8]) -> bool {
    s.get(12..14) == Some(Vlan::TPID.as_slice())
}

// Whether octets are too few for the header.
fn lacks_header(s: &[u8]) -> bool {
    s.len() < if is_tagged(s) { 22 } else { 18 }
}

// The class where a frame is shorter than its header, which is refused before any limit.
pub fn of_header(s: &[u8], ours: Refusal, theirs: Theirs) -> Option<Class> {
    match theirs {
        Theirs::Panicked(_) => {
            (ours == Reason::EndsTooSoon.at(s.len())).then_some(Class::PanicHeader)
        }
        _ => None,
    }
}

// The octets and the number of channels that a reader is given, and both answers.
#[derive(Clone, Copy)]
pub struct Answers<'a> {
    pub s: &'a [u8],
    pub channels: usize,
    pub ours: Ours,
    pub theirs: Theirs<'a>,
}

impl<'a> Answers<'a> {
    // The class, for a PDU from start on.
    fn class_from(&self, start: usize) -> Option<Class> {
        let Err(refusal) = self.ours else {
            return alike(self.ours, self.theirs);
        };
        if SavDataSetConfig::MAX_CHANNELS < self.channels {
            return (refusal == Reason::TooManyChannels.at(0)).then_some(Class::ManyChannels);
        }
        if refusal.reason == Reason::TooLongToHold {
            return limit(self.s, start, self.theirs, refusal.place);
        }
        match self.theirs {
            Theirs::Panicked(panic) => panicked(self.s, panic, refusal),
            _ => alike(self.ours, self.theirs),
        }
    }

    // The class of decode_smv's answers, for a PDU from start on. Where only the Rust answers, its PDU has something above a
    // limit.
    pub fn class_of_pdu(&self, start: usize) -> Option<Class> {
        let found = self.class_from(start)?;
        if found == Class::LimitAnswered {
            let mut octets = self.theirs.answer()?.padded();
            return Pdu::of(&mut octets)?.is_above_limit().then_some(found);
        }
        Some(found)
    }

    // The class of the frame reader's answers.
    pub fn class_of_frame(&self) -> Option<Class> {
        let s = self.s;
        if self.channels <= SavDataSetConfig::MAX_CHANNELS && lacks_header(s) {
            return of_header(s, self.ours.err()?, self.theirs);
        }
        let start = if is_tagged(s) { 26 } else { 22 };
        let found = self.class_from(start)?;
        if found == Class::LimitAnswered {
            let description = Description::of(self.theirs.answer()?.padded())?;
            return description.pdu.is_above_limit().then_some(found);
        }
        Some(found)
    }
}
