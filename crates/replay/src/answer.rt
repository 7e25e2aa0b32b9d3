// The Rust's answer to a request, and this project's.
use crate::class::Class;
use crate::octets::Octets;
use rt_services::Refusal;

// Where the Rust panics: by an index, by a range or a copy of another length, by an overflow, or otherwise.
#[derive(Clone, Copy, PartialEq, Eq)]
pub enum Panic {
    Index,
    Range,
    Overflow,
    Other,
}

impl From<u8> for Panic {
    fn from(number: u8) -> Panic {
        match number {
            1 => Panic::Index,
            2 => Panic::Range,
            3 => Panic::Overflow,
            _ => Panic::Other,
        }
    }
}

// The octets of the number and the place of a refusal.
const REFUSAL: usize = 9;

// What the Rust answers, by its status; the status of an answer without octets is 0. What is asked of a refusal or a panic is
// read with zeros after it, and whether a refusal has its number and place is kept beside them.
#[derive(Clone, Copy)]
pub enum Theirs<'a> {
    Answered(Octets<'a>),
    // After number and place, the buffer of the length writer.
    Refused {
        // The number as the line has it; ours is compared by Reason::number.
        number: u8,
        place: usize,
        is_whole: bool,
        rest: Octets<'a>,
    },
    Panicked(Panic),
    NotAsked,
    Other,
}

impl<'a> Theirs<'a> {
    pub fn of(octets: Octets<'a>) -> Theirs<'a> {
        let Some((status, answer)) = octets.rest.split_first() else {
            return Theirs::Answered(octets);
        };
        let mut fields = Octets::new(answer).padded();
        match *status {
            0 => Theirs::Answered(Octets::new(answer)),
            1 => Theirs::Refused {
                number: fields.next().unwrap_or(0),
                place: fields.next().unwrap_or(0),
                is_whole: REFUSAL <= answer.len(),
                rest: Octets::new(fields.rest),
            },
            2 => Theirs::Panicked(Panic::from(fields.next().unwrap_or(0))),
            3 => Theirs::NotAsked,
            _ => Theirs::Other,
        }
    }

    // The size that it answers, in four octets.
    pub fn size(self) -> Option<usize> {
        let mut octets = self.answer()?;
        let size: u32 = octets.next()?;
        octets.end()?;
        Some(size as usize)
    }

    // What it answers, where it neither refuses nor panics. Like `Result::ok`, no From.
    pub fn answer(self) -> Option<Octets<'a>> {
        match self {
            Theirs::Answered(octets) => Some(octets),
            _ => None,
        }
    }
}

// What this project's code answers: whether the Rust answers the same, or a refusal.
pub type Ours = Result<bool, Refusal>;

// The class of an answer of this project that is the Rust's up to here.
pub fn answered(theirs: Octets) -> Option<Class> {
    theirs.end()?;
    Some(Class::Answered)
}

// The class of a refusal that has to be the Rust's too. No From, since it takes both answers.
pub fn refused(ours: Refusal, theirs: Theirs) -> Option<Class> {
    let Theirs::Refused {
        number,
        place,
        is_whole,
        rest,
    } = theirs
    else {
        return None;
    };
    rest.end()?;
    (is_whole && number as usize == ours.reason.number() && place == ours.place).then_some(
        Class::Refused,
    )
}

// The class of two answers that have to be the same.
pub fn alike(ours: Ours, theirs: Theirs) -> Option<Class> {
    match ours {
        Ok(same) => same.then_some(Class::Answered),
        Err(refusal) => refused(refusal, theirs),
    }
}
