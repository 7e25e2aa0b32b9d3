// The calls that lines name.
use crate::answer::{Form, Outcome, Value};
use crate::case::{Case, LONGEST};
use crate::line::{Line, LineError, decimal, is_fixed};
use crate::numbers::{Calculation, values_of};
use crate::reading::Reading;
use crate::sets;
use crate::writing::{Writing, size};

#[derive(Drop)]
pub enum Call {
    Read(Reading),
    Write(Writing),
    Calculate(Calculation),
    SetsAdd(u32),
    Size { is_fixed: bool },
    ValuesOf(u16),
    IsSmv,
}

impl Call {
    // The call that a line's first word names, if it does, with its arguments; octets are put into the case.
    pub fn parse(line: &mut Line, case: &mut Case) -> Result<Option<Call>, LineError> {
        if let Some(reading) = Reading::parse(line)? {
            return Ok(Some(Call::Read(reading)));
        }
        if let Some(writing) = Writing::parse(line, case)? {
            return Ok(Some(Call::Write(writing)));
        }
        if let Some(calculation) = Calculation::parse(line)? {
            return Ok(Some(Call::Calculate(calculation)));
        }
        Ok(Some(match line.name {
            "sets_add" => Call::SetsAdd(decimal(line.next())?),
            "size" => Call::Size {
                is_fixed: is_fixed(line.next())?,
            },
            "values_of" => Call::ValuesOf(decimal(line.next())?),
            "is_smv" => Call::IsSmv,
            _ => return Ok(None),
        }))
    }

    // The form of the answer that the call's line says.
    pub fn form(&self, case: &Case) -> Form {
        match self {
            Call::Read(Reading::Header) => Form::AcceptedNumber,
            Call::Read(_) => Form::Accepted(0),
            Call::Write(_) => Form::Accepted(case.octets().len()),
            Call::Calculate(Calculation::IsGood(_)) => Form::YesOrNo,
            Call::Calculate(Calculation::ValueOf(..)) => Form::Bits,
            Call::Calculate(Calculation::CountOf(..)) => Form::AcceptedCount,
            Call::Calculate(Calculation::Nanoseconds(_)) => Form::Number,
            Call::SetsAdd(_) => Form::AcceptedNumber,
            Call::Size { .. } => Form::AcceptedNumber,
            Call::ValuesOf(_) => Form::Accepted(case.values().len()),
            Call::IsSmv => Form::YesOrNo,
        }
    }

    // Makes the call; a writer writes into the buffer. One match: each call has parameters of its own.
    pub fn make(&self, case: &mut Case, buffer: &mut [u8; LONGEST]) -> Outcome {
        match self {
            Call::Read(reading) => reading.make(case),
            Call::Write(writing) => writing.make(case, buffer),
            Call::Calculate(calculation) => Outcome::from(calculation.make()),
            Call::SetsAdd(conf_rev) => sets::add(*conf_rev, case),
            Call::Size { is_fixed } => Outcome::from(size(*is_fixed, case)),
            Call::ValuesOf(no_asdu) => values_of(*no_asdu, case),
            Call::IsSmv => {
                let is_smv = hopsickle::hopsickle_is_smv(case.octets());
                Outcome::from(Ok(Value::YesOrNo(is_smv)))
            }
        }
    }
}
