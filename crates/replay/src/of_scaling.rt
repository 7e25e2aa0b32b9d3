// The kinds c, v and k: count of a value, value of a count, and the data set of the guideline.
use crate::answer::{Theirs, answered, refused};
use crate::class::Class;
use crate::octets::Octets;
use rt_services::SavDataSetConfig;
use std::num::f32_to_bits_with_nan;

pub fn count(mut request: Octets, theirs: Theirs) -> Option<Class> {
    let value = request.next()?;
    let scale = request.next()?;
    match scaling::count_of(value, scale) {
        Err(refusal) => refused(refusal, theirs),
        Ok(count) => {
            let mut theirs = theirs.answer()?;
            theirs.has(count)?;
            answered(theirs)
        }
    }
}

pub fn value(mut request: Octets, theirs: Theirs) -> Option<Class> {
    let count = request.next()?;
    let scale = request.next()?;
    let mut theirs = theirs.answer()?;
    theirs.has(f32_to_bits_with_nan(scaling::value_of(count, scale)))?;
    answered(theirs)
}

pub fn le_92(theirs: Theirs) -> Option<Class> {
    let set = SavDataSetConfig::le_92();
    let mut theirs = theirs.answer()?;
    theirs.has(u8::try_from(set.channels).ok()?)?;
    for scale in set.scale_factor.iter().take(set.channels) {
        theirs.has(f32_to_bits_with_nan(*scale))?;
    }
    answered(theirs)
}
