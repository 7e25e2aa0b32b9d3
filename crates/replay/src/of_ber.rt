// The kinds t, r, l and u: tag and length, and integers, read and written.
use crate::answer::{Panic, Theirs, answered, refused};
use crate::class::Class;
use crate::octets::{Field, Octets};
use ber_decode::{Cursor, Width};
use rt_services::{Reason, Refusal};

pub fn head(mut request: Octets, theirs: Theirs) -> Option<Class> {
    let start = Cursor {
        at: request.next()?,
    };
    match start.head(request.rest) {
        Err(refusal) => refused(refusal, theirs),
        Ok((head, next)) => {
            let mut theirs = theirs.answer()?;
            theirs.has(head.tag)?;
            theirs.has(head.len)?;
            theirs.has(next.at)?;
            answered(theirs)
        }
    }
}

impl Field for Width {
    fn of(octets: &mut Octets) -> Option<Width> {
        match octets.next()? {
            1u8 => Some(Width::One),
            2 => Some(Width::Two),
            _ => Some(Width::Four),
        }
    }
}

pub fn integer(mut request: Octets, theirs: Theirs) -> Option<Class> {
    let width: Width = request.next()?;
    let at: usize = request.next()?;
    let len: usize = request.next()?;
    let s = request.rest;
    match (Cursor { at }).integer(s, width, len) {
        Err(refusal) => {
            let at_end = refusal == Reason::EndsTooSoon.at(s.len());
            match theirs {
                Theirs::Panicked(Panic::Overflow) => {
                    let overflows = at.checked_add(len).is_none();
                    (at_end && overflows).then_some(Class::PanicSum)
                }
                Theirs::Panicked(_) => at_end.then_some(Class::PanicAtEnd),
                _ => refused(refusal, theirs),
            }
        }
        Ok((value, next)) => {
            let mut theirs = theirs.answer()?;
            theirs.has(value)?;
            theirs.has(next.at)?;
            answered(theirs)
        }
    }
}

// What the buffer of the length writer is lent with.
const LENT: u8 = 0xee;

// The length writer in a buffer of at most 64 octets.
pub fn tag_length(mut request: Octets, theirs: Theirs) -> Option<Class> {
    let tag: u8 = request.next()?;
    let value = request.next()?;
    let len: u32 = request.next()?;
    let at: usize = request.next()?;
    let mut lent = [LENT; 64];
    let buffer = lent.get_mut(..len as usize)?;
    match ber_encode::encode_tag_length(tag, value, buffer, at) {
        Err(refusal) => refused_length(tag, at, refusal, theirs, buffer),
        Ok(next) => {
            let mut theirs = theirs.answer()?;
            theirs.has(next)?;
            theirs.has_octets(buffer)?;
            answered(theirs)
        }
    }
}

// Refusals of the length writer: the number, place 0, and a buffer that is as it was lent. The Rust has another place, and
// leaves the tag at the index when it refuses 10.
fn refused_length(
    tag: u8,
    at: usize,
    ours: Refusal,
    theirs: Theirs,
    buffer: &[u8],
) -> Option<Class> {
    if ours.place != 0 {
        return None;
    }
    match theirs {
        Theirs::Panicked(_) => { (ours.reason == Reason::NoRoom).then_some(Class::PanicNoRoom) }
        Theirs::Refused { number, rest, .. } => {
            if number as usize != ours.reason.number() {
                return None;
            }
            if ours.reason == Reason::NoRoom {
                return (buffer == rest.rest).then_some(Class::Place0);
            }
            tag_left(tag, at, rest.rest, buffer).then_some(Class::TagLeft)
        }
        _ => None,
    }
}

// The octets from a place on; none past the end.
fn after(s: &[u8], at: usize) -> &[u8] {
    s.get(at..).unwrap_or_default()
}

// Whether the Rust's buffer is as it was lent but for the tag at the index, and ours is as it was lent. Where the Rust's ends at
// the index, a 0 stands there.
fn tag_left(tag: u8, at: usize, theirs: &[u8], ours: &[u8]) -> bool {
    let next = at.saturating_add(1);
    ours.get(at) == Some(&LENT)
        && theirs.get(at).copied().unwrap_or(0) == tag
        && ours.get(..at) == theirs.get(..at)
        && after(ours, next) == after(theirs, next)
}

// The answer of the integer writer: how many content octets, and the octets written.
pub fn integer_octets(mut request: Octets, theirs: Theirs) -> Option<Class> {
    let tag = request.next()?;
    let _width: u8 = request.next()?;
    let value = request.next()?;
    let mut buffer = [0; 16];
    let n = ber_encode::encode_unsigned_integer(tag, value, &mut buffer, 0).ok()?;
    let mut theirs = theirs.answer()?;
    theirs.has(u8::try_from(ber_encode::unsigned_integer_length(value)).ok()?)?;
    theirs.has_octets(buffer.get(..n)?)?;
    answered(theirs)
}
