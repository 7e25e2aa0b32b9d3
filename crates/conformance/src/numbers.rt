// The calls on numbers alone, and the values of counts.
use crate::answer::{Answer, Outcome, Value, answered};
use crate::case::{Case, LIST};
use crate::lent::{Element, is_filled};
use crate::line::{Line, LineError, bits, count, decimal, float};
use std::num::f32_to_bits_with_nan;
use types::Quality;

// A call on numbers.
#[derive(Clone, Copy)]
pub enum Calculation {
    IsGood(u32),
    ValueOf(i32, f32),
    CountOf(f32, f32),
    Nanoseconds(u32),
}

impl Calculation {
    // The calculation that a line's first word names, if it does, with its arguments.
    pub fn parse(line: &mut Line) -> Result<Option<Calculation>, LineError> {
        Ok(Some(match line.name {
            "is_good" => Calculation::IsGood(bits(line.next())?),
            "value_of" => Calculation::ValueOf(count(line.next())?, float(line.next())?),
            "count_of" => Calculation::CountOf(float(line.next())?, float(line.next())?),
            "nanoseconds" => Calculation::Nanoseconds(decimal(line.next())?),
            _ => return Ok(None),
        }))
    }

    // No From: it is a call, and what it answers is not the calculation in another form.
    pub fn make(self) -> Answer {
        match self {
            Calculation::IsGood(word) => Ok(Value::YesOrNo(Quality::from_sv(word).is_good())),
            Calculation::ValueOf(count, scale) => {
                Ok(Value::Bits(f32_to_bits_with_nan(scaling::value_of(count, scale))))
            }
            Calculation::CountOf(value, scale) => {
                Ok(Value::Count(scaling::count_of(value, scale)?))
            }
            Calculation::Nanoseconds(fraction) => {
                Ok(Value::Number(types::nanoseconds(fraction) as usize))
            }
        }
    }
}

// The values of counts, into as many elements as the case lends.
pub fn values_of(no_asdu: u16, case: &Case) -> Outcome {
    let mut values = [f32::LENT; LIST];
    let out = &mut values[..case.room.counts];
    let answer = answered(|size| {
        hopsickle::hopsickle_values(case.scales(), no_asdu, case.counts(), out, size)
    });
    let is_right = match answer {
        Ok(_) => is_filled(&values, case.values()),
        Err(_) => is_filled(&values, &[]),
    };
    Outcome { answer, is_right }
}
