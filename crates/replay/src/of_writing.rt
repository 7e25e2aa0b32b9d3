// The kinds e and s: the writer, and the size of what it writes.
use crate::answer::{Ours, Theirs};
use crate::class::Class;
use crate::description::{Description, SAMPLES};
use crate::octets::Octets;
use crate::writing_class;
use rt_services::{Reason, Refusal, SavAsdu, SavPdu};
use types::Quality;

// Whether the Rust writes the n first octets of a frame.
fn writes_same(theirs: Theirs, frame: &[u8], n: usize) -> bool {
    match (theirs.answer(), frame.get(..n)) {
        (Some(theirs), Some(ours)) => theirs.rest == ours,
        _ => false,
    }
}

// Refusal 11, where a count can't be had, comes after 8, 7 for the arrays and 9, and before 10.
// No From: it is the order of refusals, and holds only where a count can't be had.
fn out_of_range(written: Result<usize, Refusal>) -> Refusal {
    match written {
        Err(refusal)
            if matches!(
                refusal.reason,
                Reason::NoRoom | Reason::TooManyChannels | Reason::BadDescription
            ) => { refusal }
        _ => Reason::ValueOutOfRange.at(0),
    }
}

// What the writer of counts answers. Counts and quality words are two arrays, as the writer is lent them.
fn of_counts(
    asked: &Description,
    theirs: Theirs,
    counts: &[i32; SAMPLES],
    qualities: &[u32; SAMPLES],
) -> Ours {
    let mut frame = [0; SavPdu::MAX_FRAME];
    let written = encode_smv::encode_smv(
        asked.header,
        asked.pdu.pdu(),
        asked.pdu.channels(),
        false,
        counts,
        qualities,
        &mut frame,
    );
    if asked.pdu.any_sample(|sample| sample.count().is_err()) {
        return Err(out_of_range(written));
    }
    Ok(writes_same(theirs, &frame, written?))
}

// What the writer of values answers.
fn of_values(asked: &Description, theirs: Theirs, qualities: &[u32; SAMPLES]) -> Ours {
    let mut frame = [0; SavPdu::MAX_FRAME];
    let values = asked.pdu.each_sample(|sample| sample.value());
    let n = encode_values::encode_values(
        asked.header,
        asked.pdu.pdu(),
        asked.pdu.data_set(),
        false,
        &values,
        qualities,
        &mut frame,
    )?;
    Ok(writes_same(theirs, &frame, n))
}

// What the two writers answer, the one of counts after the counts have been worked out.
pub fn encode(request: Octets, theirs: Theirs) -> Option<Class> {
    let asked = Description::of(request)?;
    if let Some(class) = writing_class::undescribed(&asked) {
        return Some(class);
    }
    let pdu = asked.pdu;
    let counts = pdu.each_sample(|sample| sample.count().unwrap_or(0));
    let qualities = pdu.each_sample(|sample| Quality::from_sv(sample.quality).to_sv());
    let ours = of_counts(&asked, theirs, &counts, &qualities);
    let wide = pdu.any_sample(|sample| SavAsdu::QUALITY_LIMIT <= sample.quality);
    let found = writing_class::class_of(&asked, ours, theirs, wide)?;
    if wide {
        let words = pdu.each_sample(|sample| sample.quality);
        let refused = of_counts(&asked, theirs, &counts, &words);
        if !writing_class::is_refused_as_described(refused) {
            return None;
        }
    }
    if !pdu.has_other_scales() {
        return (ours == of_values(&asked, theirs, &qualities)).then_some(found);
    }
    // ASDUs with different scale factors are no data set, so that only the writer of counts is asked.
    if found == Class::Answered {
        return Some(Class::OtherScales);
    }
    Some(found)
}

pub fn size(request: Octets, theirs: Theirs) -> Option<Class> {
    let asked = Description::of(request)?;
    if let Some(class) = writing_class::undescribed(&asked) {
        return Some(class);
    }
    let sized = encode_smv::smv_size(asked.header, asked.pdu.pdu(), asked.pdu.channels(), false);
    let ours = sized.map(|n| theirs.size() == Some(n));
    writing_class::class_of(&asked, ours, theirs, false)
}
