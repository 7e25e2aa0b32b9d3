// What the lines of a case give.
// A line that isn't understood may have put octets or items before its fault, so each is put into an array of
// the most that there can be, with its length beside it.
ghost use Rattle.std.specs.Prelude.{◌≤◌, IfOk};
ghost use Rattle.conformance.specs.declared.case.TheConstants.{LIST, LONGEST};
ghost use Rattle.conformance.specs.declared.description.TheConstants.{NUMBERS, OCTETS};

use crate::description;
use crate::description::Description;
use crate::line::{Line, LineError, count, decimal, float};
use rt_services::{SavDataSetConfig, SavPdu};
use set_store::DataSets;

// Elements that a lent array of samples, values or scale factors can have.
pub const LIST: usize = 256;

// Octets that are read or written, and that a lent buffer can have.
pub const LONGEST: usize = 4096;

// How many elements the arrays have that a call is lent: the buffer of a writer; counts or values, and
// quality words; the numbers and the octets of the description; the numbers of the description where it is
// written. Where a line that isn't understood says more than there can be, all are lent, but a writer no
// numbers where it says more than `description::SPACE`.
#[derive(Clone, Copy)]
pub struct Room {
    pub buffer: usize,
    pub counts: usize,
    pub qualities: usize,
    pub numbers: usize,
    pub octets: usize,
    pub written: usize,
    ghost buffer_fits: { buffer ≤ LONGEST },
    ghost counts_fit: { counts ≤ LIST },
    ghost qualities_fit: { qualities ≤ LIST },
    ghost numbers_fit: { numbers ≤ NUMBERS },
    ghost octets_fit: { octets ≤ OCTETS },
    ghost written_fits: { written ≤ NUMBERS },
}

#[derive(Clone, Copy)]
pub struct Case {
    pub room: Room,
    pub channels: usize,
    // The octets that are read, and that a writer has to write; those of octet_string.
    octets: [u8; LONGEST],
    octets_len: usize,
    pub string: [u8; LONGEST],
    counts: [i32; LIST],
    counts_len: usize,
    qualities: [u32; LIST],
    qualities_len: usize,
    values: [f32; LIST],
    values_len: usize,
    scales: [f32; LIST],
    scales_len: usize,
    pub description: Description,
    pub store: DataSets,
}

// The first n elements; none where there are fewer.
fn first<T>(elements: &[T], n: usize) -> &[T] {
    elements.get(..n).unwrap_or_default()
}

impl Case {
    // What holds without a line: nothing is given, and the store is empty.
    pub fn new() -> Case {
        let mut case = Case::before_the_first();
        case.room = Room {
            buffer: SavPdu::MAX_FRAME,
            counts: SavDataSetConfig::MAX_SAMPLES,
            qualities: SavDataSetConfig::MAX_SAMPLES,
            numbers: description::NUMBERS,
            octets: description::OCTETS,
            written: description::NUMBERS,
        };
        case
    }

    // The same with nothing lent, as it is before the first case.
    pub fn before_the_first() -> Case {
        Case {
            room: Room {
                buffer: 0,
                counts: 0,
                qualities: 0,
                numbers: 0,
                octets: 0,
                written: 0,
            },
            channels: 0,
            octets: [0; LONGEST],
            octets_len: 0,
            string: [0; LONGEST],
            counts: [0; LIST],
            counts_len: 0,
            qualities: [0; LIST],
            qualities_len: 0,
            values: [0.0; LIST],
            values_len: 0,
            scales: [0.0; LIST],
            scales_len: 0,
            description: Description::empty(),
            store: DataSets::empty(),
        }
    }

    pub fn octets(&self) -> &[u8] {
        first(&self.octets, self.octets_len)
    }

    pub fn counts(&self) -> &[i32] {
        first(&self.counts, self.counts_len)
    }

    pub fn qualities(&self) -> &[u32] {
        first(&self.qualities, self.qualities_len)
    }

    pub fn values(&self) -> &[f32] {
        first(&self.values, self.values_len)
    }

    pub fn scales(&self) -> &[f32] {
        first(&self.scales, self.scales_len)
    }

    // Takes a line that gives something.
    pub fn take(&mut self, line: Line) -> Result<(), LineError> {
        let is_taken = self.take_list(line)?
            || self.take_room(line)?
            || self.description.take_number(line)?
            || self.description.take_octets(line)?
            || self.description.take_asdu_number(line)?
            || self.description.take_asdu_octets(line)?;
        if is_taken {
            Ok(())
        } else {
            Err(LineError::NotUnderstood)
        }
    }

    // Takes a line of a list, if it is one.
    fn take_list(&mut self, line: Line) -> Result<bool, LineError> {
        match line.name {
            "counts" => self.counts_len = line.list(&mut self.counts, count)?,
            "qualities" => {
                self.qualities_len = line.list(&mut self.qualities, |text| decimal(text))?;
            }
            "values" => self.values_len = line.list(&mut self.values, float)?,
            "scales" => self.scales_len = line.list(&mut self.scales, float)?,
            _ => return Ok(false),
        }
        Ok(true)
    }

    // Takes a line of the octets, the channels or how much is lent, if it is one. A match of the format's
    // words: an enum of them would only add a second match.
    fn take_room(&mut self, line: Line) -> Result<bool, LineError> {
        match line.name {
            "octets" => {
                let mut line = line;
                let n = line.octets(&mut self.octets)?;
                line.end()?;
                self.octets_len = n;
            }
            "channels" => self.channels = number(line)?,
            "buffer" => {
                let n = number(line)?;
                self.room.buffer = n.min(LONGEST);
                at_most(LONGEST, n)?;
            }
            "room" => {
                let (counts, qualities) = two_numbers(line)?;
                self.room.counts = counts.min(LIST);
                self.room.qualities = qualities.min(LIST);
                at_most(LIST, counts)?;
                at_most(LIST, qualities)?;
            }
            "flat" => {
                let (numbers, octets) = two_numbers(line)?;
                let lent = numbers.min(description::NUMBERS);
                self.room.numbers = lent;
                self.room.octets = octets.min(description::OCTETS);
                self.room.written = if description::SPACE < numbers {
                    0
                } else {
                    lent
                };
                at_most(description::NUMBERS, numbers)?;
                at_most(description::OCTETS, octets)?;
            }
            _ => return Ok(false),
        }
        Ok(true)
    }

    // Adds to the store the data set of the scale factors.
    // The places of a set are computed, since C lends a store as two arrays of numbers.
    pub fn hold(&mut self, conf_rev: u32) {
        let n = self.store.numbers[0] as usize;
        if DataSets::MAX_SETS <= n {
            return;
        }
        self.store.numbers[0] = n as u32 + 1;
        self.store.numbers[1 + 2 * n] = conf_rev;
        self.store.numbers[2 + 2 * n] = (self.scales_len % 0x100000000) as u32;
        let at = n * SavDataSetConfig::MAX_CHANNELS;
        let factors = self.factors();
        self.store.scales[at..at + SavDataSetConfig::MAX_CHANNELS].copy_from_slice(&factors);
    }

    // The scale factors of a data set, 0 past those that are given.
    pub fn factors(&self) -> [f32; SavDataSetConfig::MAX_CHANNELS] {
        let mut factors = [0.0; SavDataSetConfig::MAX_CHANNELS];
        factors.copy_from_slice(&self.scales[..SavDataSetConfig::MAX_CHANNELS]);
        factors
    }
}

// The number of 32 bits that a line gives.
fn number(mut line: Line) -> Result<usize, LineError> {
    let n: u32 = decimal(line.next())?;
    line.end()?;
    Ok(n as usize)
}

// The two that a line gives.
fn two_numbers(mut line: Line) -> Result<(usize, usize), LineError> {
    let a: u32 = decimal(line.next())?;
    let b: u32 = decimal(line.next())?;
    line.end()?;
    Ok((a as usize, b as usize))
}

// Whether a number that was taken is one that there can be.
fn at_most(most: usize, n: usize) -> Result<(), LineError>
    ensures { IfOk result (λ _. n ≤ most) }
{
    if most < n {
        return Err(LineError::NotUnderstood);
    }
    Ok(())
}
