// The store of data sets: additions, and readings by it.
// The arrays of a reading and of the store are apart, as in the C interface.
use crate::answer::{Outcome, answered};
use crate::case::Case;
use crate::lent;
use crate::lent::{Element, is_filled};
use rt_services::SavDataSetConfig;

// Adds a data set. The arrays have to be those of the store of the case, to which it is added where
// it is accepted.
pub fn add(conf_rev: u32, case: &mut Case) -> Outcome {
    let mut numbers = case.store.numbers;
    let mut scales = case.store.scales;
    let answer = answered(|held| {
        hopsickle::hopsickle_sets_add(&mut numbers, &mut scales, conf_rev, case.scales(), held)
    });
    if answer.is_ok() {
        case.hold(conf_rev);
    }
    Outcome {
        answer,
        is_right: numbers == case.store.numbers && is_filled(&scales, &case.store.scales),
    }
}

// A frame by the store of the case. The data set handed back has to be that of the scale factors that
// are given, or as it was lent where the frame is refused.
pub fn read(
    case: &Case,
    numbers: &mut [u32],
    octets: &mut [u8],
    counts: &mut [i32],
    qualities: &mut [u32],
) -> Outcome {
    let mut channels = lent::NUMBER;
    let mut scales = [f32::LENT; SavDataSetConfig::MAX_CHANNELS];
    let answer = answered(|place| {
        hopsickle::hopsickle_read_by_sets(
            case.octets(),
            &case.store.numbers,
            &case.store.scales,
            &mut channels,
            &mut scales,
            numbers,
            octets,
            counts,
            qualities,
            place,
        )
    });
    let is_right = match answer {
        Ok(_) => channels == case.scales().len() && is_filled(&scales, &case.factors()),
        Err(_) => channels == lent::NUMBER && is_filled(&scales, &[]),
    };
    Outcome { answer, is_right }
}
