// The class of two answers of the writer or of the size. The Rust has no limits, and its records hold what a description of
// this project can't.
// Refusal 9 and the octets of a header are worked out here again, so that the judge doesn't stand on what it judges.
use crate::answer::{Ours, Theirs};
use crate::class::Class;
use crate::description::Description;
use rt_services::{Reason, Refusal, SavDataSetConfig, SavPdu, Vlan};

// Why a request can't be described; None where it can.
pub fn undescribed(asked: &Description) -> Option<Class> {
    if asked.half_tag {
        return Some(Class::HalfTag);
    }
    if asked.pdu.no_asdu as usize != asked.pdu.records.len() {
        return Some(Class::OtherCount);
    }
    if !asked.pdu.is_even() {
        return Some(Class::Uneven);
    }
    None
}

// Whether refusal 9 is due: number of ASDUs, header, security or a text.
fn is_outside(asked: &Description) -> bool {
    let tagged = match asked.header.vlan {
        Vlan::Tagged(tpid, _) => tpid == 0x8100,
        Vlan::Untagged => true,
    };
    asked.pdu.records.len() == 0
        || asked.header.ether_type != 0x88ba
        || !tagged
        || asked.pdu.is_above_limit()
}

// Whether an answer is refusal 8 or 9, place 0.
pub fn is_refused_as_described(ours: Ours) -> bool {
    matches!(
        ours,
        Err(Refusal {
            reason: Reason::TooManyChannels | Reason::BadDescription,
            place: 0,
        })
    )
}

// The octets of a frame before its PDU.
fn header_octets(asked: &Description) -> usize {
    match asked.header.vlan {
        Vlan::Tagged(..) => 26,
        Vlan::Untagged => 22,
    }
}

// The octets of the Rust's frame, where it answers: the size that it says, or those that it writes.
fn frame_octets(theirs: Theirs) -> usize {
    let written = theirs.answer().map_or(0, |frame| frame.rest.len());
    theirs.size().unwrap_or(written)
}

// The class of a refusal. No From, since it takes the request and both answers.
fn refused(asked: &Description, ours: Refusal, theirs: Theirs) -> Option<Class> {
    if ours.place != 0 {
        return None;
    }
    match (ours.reason, theirs) {
        (Reason::TooManyChannels, _) => Some(Class::ManyChannels),
        (Reason::BadDescription, _) => {
            if is_outside(asked) {
                outside(theirs)
            } else {
                None
            }
        }
        (Reason::TooLongToWrite, Theirs::Answered(_)) => {
            let pdu = frame_octets(theirs).saturating_sub(header_octets(asked));
            (SavPdu::MAX_OCTETS < pdu).then_some(Class::LongPdu)
        }
        (Reason::ValueOutOfRange, Theirs::Refused { number: 11, .. }) => Some(Class::Place0),
        _ => None,
    }
}

// The class of refusal 9, by what the Rust does. No From: the same answers have other classes at other refusals.
fn outside(theirs: Theirs) -> Option<Class> {
    match theirs {
        Theirs::Answered(_) => Some(Class::OutsideAnswered),
        Theirs::Refused { .. } => Some(Class::OutsideRefused),
        Theirs::Panicked(_) => Some(Class::OutsidePanicked),
        Theirs::NotAsked | Theirs::Other => None,
    }
}

// The class of two answers; wide: a quality word is of 2^13 or more in the request, and was cleared to what Quality holds.
pub fn class_of(asked: &Description, ours: Ours, theirs: Theirs, wide: bool) -> Option<Class> {
    match ours {
        Err(refusal) => refused(asked, refusal, theirs),
        Ok(same) => {
            if !same || is_outside(asked) || SavDataSetConfig::MAX_CHANNELS < asked.pdu.channels() {
                None
            } else if wide {
                Some(Class::WideQuality)
            } else {
                Some(Class::Answered)
            }
        }
    }
}
