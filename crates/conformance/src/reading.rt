// The calls that read a frame into lent arrays.
use crate::answer::{Answer, Outcome, answered};
use crate::case::{Case, LIST};
use crate::description::Description;
use crate::lent::{Element, is_filled};
use crate::line::{Line, LineError, bits, decimal, is_fixed};
use crate::{description, sets};
use hopsickle::{
    hopsickle_decode, hopsickle_header, hopsickle_read, hopsickle_read_checked,
    hopsickle_read_granted, hopsickle_read_strict,
};

// How a frame is read.
#[derive(Clone, Copy)]
pub enum Reading {
    Ordinary,
    Strict { is_fixed: bool },
    Checked,
    // Of the channels that a mask shows.
    Granted(u32),
    // A PDU from a place on.
    Decode(usize),
    Header,
    BySets,
}

impl Reading {
    // The reading that a line's first word names, if it does, with its argument.
    pub fn parse(line: &mut Line) -> Result<Option<Reading>, LineError> {
        Ok(Some(match line.name {
            "read" => Reading::Ordinary,
            "read_strict" => Reading::Strict {
                is_fixed: is_fixed(line.next())?,
            },
            "read_checked" => Reading::Checked,
            "read_granted" => Reading::Granted(bits(line.next())?),
            "decode" => Reading::Decode(decimal(line.next())?),
            "header" => Reading::Header,
            "read_by_sets" => Reading::BySets,
            _ => return Ok(None),
        }))
    }

    // Reads into arrays of so many elements as the case lends.
    pub fn make(self, case: &Case) -> Outcome {
        let mut lent = Lent::new();
        let room = case.room;
        let outcome = call(
            self,
            case,
            &mut lent.numbers[..room.numbers],
            &mut lent.octets[..room.octets],
            &mut lent.counts[..room.counts],
            &mut lent.qualities[..room.qualities],
        );
        let is_right = match outcome.answer {
            Ok(_) => lent.is_handed_back(self, case),
            Err(_) => lent.is_untouched(),
        };
        Outcome {
            answer: outcome.answer,
            is_right: is_right && outcome.is_right,
        }
    }
}

// The arrays that a reading is lent.
// They are apart, as in the C interface, here and in the calls.
#[derive(Clone, Copy)]
struct Lent {
    numbers: [u32; description::NUMBERS],
    octets: [u8; description::OCTETS],
    counts: [i32; LIST],
    qualities: [u32; LIST],
}

impl Lent {
    fn new() -> Lent {
        Lent {
            numbers: [u32::LENT; description::NUMBERS],
            octets: [u8::LENT; description::OCTETS],
            counts: [i32::LENT; LIST],
            qualities: [u32::LENT; LIST],
        }
    }

    fn is_untouched(&self) -> bool {
        is_filled(&self.numbers, &[])
            && is_filled(&self.octets, &[])
            && is_filled(&self.counts, &[])
            && is_filled(&self.qualities, &[])
    }

    // Whether the arrays have what an accepted reading hands back.
    fn is_handed_back(&self, reading: Reading, case: &Case) -> bool {
        let given = &case.description;
        match reading {
            Reading::Header => {
                is_filled(&self.numbers, &given.numbers[..layout::HEADER_NUMBERS])
                    && is_filled(&self.octets, &given.octets[..layout::HEADER_OCTETS])
                    && is_filled(&self.counts, &[])
                    && is_filled(&self.qualities, &[])
            }
            Reading::Decode(_) => self.is_read(&without_header(given), case),
            _ => self.is_read(given, case),
        }
    }

    // Whether the arrays have a description and the samples.
    fn is_read(&self, description: &Description, case: &Case) -> bool {
        is_filled(&self.numbers, description.given_numbers())
            && is_filled(&self.octets, description.given_octets())
            && is_filled(&self.counts, case.counts())
            && is_filled(&self.qualities, case.qualities())
    }
}

// A description with zeros in the place of the header.
fn without_header(given: &Description) -> Description {
    let mut description = *given;
    description.numbers[..layout::HEADER_NUMBERS].fill(0);
    description.octets[..layout::HEADER_OCTETS].fill(0);
    description
}

// One match: each call has parameters of its own, as in the C interface.
fn call(
    reading: Reading,
    case: &Case,
    numbers: &mut [u32],
    octets: &mut [u8],
    counts: &mut [i32],
    qualities: &mut [u32],
) -> Outcome {
    let frame = case.octets();
    let channels = case.channels;
    let answer = match reading {
        Reading::Ordinary => answered(|place| {
            hopsickle_read(frame, channels, numbers, octets, counts, qualities, place)
        }),
        Reading::Strict { is_fixed } => answered(|place| {
            hopsickle_read_strict(
                frame, channels, is_fixed, numbers, octets, counts, qualities, place,
            )
        }),
        Reading::Checked => answered(|place| {
            hopsickle_read_checked(frame, channels, numbers, octets, counts, qualities, place)
        }),
        Reading::Granted(mask) => answered(|place| {
            hopsickle_read_granted(
                frame, channels, mask, numbers, octets, counts, qualities, place,
            )
        }),
        Reading::Decode(at) => answered(|place| {
            hopsickle_decode(
                frame, at, channels, numbers, octets, counts, qualities, place,
            )
        }),
        Reading::Header => { answered(|place| hopsickle_header(frame, numbers, octets, place)) }
        Reading::BySets => return sets::read(case, numbers, octets, counts, qualities),
    };
    Outcome::from(answer)
}
