// The kinds q, b, d, n and w: quality, time quality and timestamp.
use crate::answer::{Theirs, answered};
use crate::class::Class;
use crate::octets::Octets;
use types::{Quality, TimeQuality, Timestamp};

pub fn quality(mut request: Octets, theirs: Theirs) -> Option<Class> {
    let q = Quality::from_sv(request.next()?);
    let mut theirs = theirs.answer()?;
    theirs.has(q.validity as u8)?;
    for flag in [
        q.overflow,
        q.out_of_range,
        q.bad_reference,
        q.oscillatory,
        q.failure,
        q.old_data,
        q.inconsistent,
        q.inaccurate,
        q.source_substituted,
        q.test,
        q.operator_blocked,
    ] {
        theirs.has(flag)?;
    }
    theirs.has(q.to_sv())?;
    theirs.has(q.is_good())?;
    answered(theirs)
}

fn has_time_quality(theirs: &mut Octets, q: TimeQuality) -> Option<()> {
    theirs.has(q.leap_second_known)?;
    theirs.has(q.clock_failure)?;
    theirs.has(q.clock_not_synchronized)?;
    theirs.has(q.time_accuracy)
}

pub fn time_quality(mut request: Octets, theirs: Theirs) -> Option<Class> {
    let q = TimeQuality::from_byte(request.next()?);
    let mut theirs = theirs.answer()?;
    has_time_quality(&mut theirs, q)?;
    theirs.has(q.to_byte())?;
    theirs.has(q.accuracy_bits())?;
    answered(theirs)
}

pub fn timestamp(mut request: Octets, theirs: Theirs) -> Option<Class> {
    let t = Timestamp::from_bytes(request.next()?);
    let mut theirs = theirs.answer()?;
    theirs.has(t.seconds)?;
    theirs.has(t.fraction)?;
    has_time_quality(&mut theirs, t.quality)?;
    theirs.has(t.to_bytes())?;
    theirs.has(t.fraction_as_nanos())?;
    answered(theirs)
}

pub fn nanoseconds(mut request: Octets, theirs: Theirs) -> Option<Class> {
    let fraction = request.next()?;
    let octets = theirs.answer()?;
    let nanoseconds: u32 = octets.padded().next()?;
    if octets.rest.len() == 4 && nanoseconds == types::nanoseconds(fraction) {
        return Some(Class::Answered);
    }
    (0x100_0000 <= fraction && nanoseconds as u64 == uncut(fraction)).then_some(
        Class::LargeFraction,
    )
}

// What the Rust answers: the nanoseconds of all 32 bits, cut to 32 bits.
fn uncut(fraction: u32) -> u64 {
    fraction as u64 * 1_000_000_000 / 0x100_0000 % 0x1_0000_0000
}

pub fn timestamp_octets(mut request: Octets, theirs: Theirs) -> Option<Class> {
    let t = Timestamp {
        seconds: request.next()?,
        fraction: request.next()?,
        quality: TimeQuality {
            leap_second_known: request.next()?,
            clock_failure: request.next()?,
            clock_not_synchronized: request.next()?,
            time_accuracy: request.next()?,
        },
    };
    let mut theirs = theirs.answer()?;
    theirs.has(t.to_bytes())?;
    theirs.has(t.quality.accuracy_bits())?;
    answered(theirs)
}
