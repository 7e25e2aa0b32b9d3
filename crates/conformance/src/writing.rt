// The calls that write octets into a lent buffer, and the size of a frame.
use crate::answer::{Answer, Outcome, Value, answered};
use crate::case::{Case, LONGEST};
use crate::lent::{Element, is_filled};
use crate::line::{Line, LineError, decimal, is_fixed, tag};

// What is written.
#[derive(Clone, Copy)]
pub enum Writing {
    // The frame of the description with the counts, or with those of the values.
    Counts { is_fixed: bool },
    Values { is_fixed: bool },
    // A tag and a length; an unsigned integer, or so many octets of the case, with their tag and length.
    TagLength(u8, usize),
    UnsignedInteger(u8, u32),
    OctetString(u8, usize),
}

impl Writing {
    // What a line's first word names, if it is written, with its arguments.
    pub fn parse(line: &mut Line, case: &mut Case) -> Result<Option<Writing>, LineError> {
        Ok(Some(match line.name {
            "write" => Writing::Counts {
                is_fixed: is_fixed(line.next())?,
            },
            "write_values" => Writing::Values {
                is_fixed: is_fixed(line.next())?,
            },
            "tag_length" => Writing::TagLength(tag(line.next())?, decimal(line.next())?),
            "unsigned_integer" => {
                Writing::UnsignedInteger(tag(line.next())?, decimal(line.next())?)
            }
            "octet_string" => Writing::OctetString(
                tag(line.next())?,
                line.octets(&mut case.string)?,
            ),
            _ => return Ok(None),
        }))
    }

    // Writes into a buffer of so many octets as the case lends.
    pub fn make(&self, case: &Case, out: &mut [u8; LONGEST]) -> Outcome {
        out.fill(u8::LENT);
        let answer = self.call(case, &mut out[..case.room.buffer]);
        let is_right = match answer {
            Ok(_) => is_filled(out, case.octets()),
            Err(_) => is_filled(out, &[]),
        };
        Outcome { answer, is_right }
    }

    // One match: each call has parameters of its own.
    fn call(&self, case: &Case, out: &mut [u8]) -> Answer {
        match self {
            Writing::Counts { is_fixed } => frame(*is_fixed, case, out),
            Writing::Values { is_fixed } => frame_of_values(*is_fixed, case, out),
            Writing::TagLength(tag, length) => {
                Ok(Value::Number(ber_encode::encode_tag_length(*tag, *length, out, 0)?))
            }
            Writing::UnsignedInteger(tag, number) => {
                Ok(Value::Number(ber_encode::encode_unsigned_integer(*tag, *number, out, 0)?))
            }
            Writing::OctetString(tag, n) => {
                let octets = case.string.get(..*n).unwrap_or_default();
                Ok(Value::Number(ber_encode::encode_octet_string(*tag, octets, out, 0)?))
            }
        }
    }
}

// The numbers, and the octets, of the description, as many as the case lends.
fn numbers(case: &Case) -> &[u32] {
    &case.description.numbers[..case.room.written]
}

fn description_octets(case: &Case) -> &[u8] {
    &case.description.octets[..case.room.octets]
}

// A frame with the counts. Each call has parameters of its own, as in the C interface, so each has
// a function here.
fn frame(is_fixed: bool, case: &Case, out: &mut [u8]) -> Answer {
    answered(|size| {
        hopsickle::hopsickle_write(
            numbers(case),
            description_octets(case),
            case.channels,
            is_fixed,
            case.counts(),
            case.qualities(),
            out,
            size,
        )
    })
}

// A frame with the counts of the values.
fn frame_of_values(is_fixed: bool, case: &Case, out: &mut [u8]) -> Answer {
    answered(|size| {
        hopsickle::hopsickle_write_values(
            numbers(case),
            description_octets(case),
            case.scales(),
            is_fixed,
            case.values(),
            case.qualities(),
            out,
            size,
        )
    })
}

// How many octets a frame is written in.
pub fn size(is_fixed: bool, case: &Case) -> Answer {
    answered(|size| {
        hopsickle::hopsickle_size(
            numbers(case),
            description_octets(case),
            case.channels,
            is_fixed,
            size,
        )
    })
}
