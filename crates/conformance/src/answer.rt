// What a call answers, and what its line says that it has to.
use crate::lent;
use crate::line::{Line, LineError, bits, choice, count, decimal};
use rt_services::Refusal;
use std::fmt;

// The number of a refusal, and its place.
// A number, and no Reason, since the calls for C and the list have it so.
#[derive(Clone, Copy, PartialEq, Eq)]
pub struct Refused {
    pub number: usize,
    pub place: usize,
}

impl From<Refusal> for Refused {
    fn from(r: Refusal) -> Refused {
        Refused {
            number: r.reason.number(),
            place: r.place,
        }
    }
}

// What is answered alone or beside accepted; Number(0) where nothing is. Yes is printed as 1, and no as 0.
#[derive(Clone, Copy, PartialEq, Eq)]
pub enum Value {
    YesOrNo(bool),
    Number(usize),
    Bits(u32),
    Count(i32),
}

impl fmt::Display for Value {
    fn fmt<W: fmt::Write>(&self, f: &mut fmt::Formatter<W>) -> fmt::Result {
        match self {
            Value::YesOrNo(is) => write!(f, "{}", u8::from(*is)),
            Value::Number(n) => write!(f, "{n}"),
            Value::Bits(bits) => write!(f, "{bits:08x}"),
            Value::Count(count) => write!(f, "{count}"),
        }
    }
}

pub type Answer = Result<Value, Refused>;

// The answer of a call that hands back the number of a refusal or 0, and its place or a number
// beside accepted, as in the C interface.
pub fn answered<F>(call: F) -> Answer
where
    F: FnOnce(&mut usize) -> usize,
    requires { F.IsAlwaysCallable call }
{
    let mut beside = lent::NUMBER;
    let number = call(&mut beside);
    if number == 0 {
        return Ok(Value::Number(beside));
    }
    Err(Refused {
        number,
        place: beside,
    })
}

// An answer, and whether the call left in the lent arrays what it has to.
#[derive(Clone, Copy)]
pub struct Outcome {
    pub answer: Answer,
    pub is_right: bool,
}

impl From<Answer> for Outcome {
    // Of a call that is lent no arrays.
    fn from(answer: Answer) -> Outcome {
        Outcome {
            answer,
            is_right: true,
        }
    }
}

// The form in which a line says an answer.
#[derive(Clone, Copy)]
pub enum Form {
    YesOrNo,
    Bits,
    Number,
    // Accepted with a number or a count, or refused.
    AcceptedNumber,
    AcceptedCount,
    // Accepted alone, beside which has to stand this number, or refused.
    Accepted(usize),
}

// The refusal that the words left of a line say. The list has refusals by number, from 1 on.
fn refusal(mut line: Line) -> Result<Refused, LineError> {
    let number = decimal(line.next())?;
    let place = decimal(line.left())?;
    if number == 0 {
        return Err(LineError::NotUnderstood);
    }
    Ok(Refused { number, place })
}

impl Form {
    // The answer that the words left of a line say.
    pub fn said(self, line: Line) -> Result<Answer, LineError> {
        let mut more = line;
        let word = more.next();
        Ok(match (self, word) {
            (Form::YesOrNo, _) => Ok(Value::YesOrNo(choice(line.left(), "no", "yes")?)),
            (Form::Bits, _) => Ok(Value::Bits(bits(line.left())?)),
            (Form::Number, _) => Ok(Value::Number(decimal(line.left())?)),
            (Form::Accepted(n), "accepted") => {
                more.end()?;
                Ok(Value::Number(n))
            }
            (Form::AcceptedNumber, "accepted") => Ok(Value::Number(decimal(more.left())?)),
            (Form::AcceptedCount, "accepted") => Ok(Value::Count(count(more.left())?)),
            (_, "refused") => Err(refusal(more)?),
            _ => return Err(LineError::NotUnderstood),
        })
    }
}
