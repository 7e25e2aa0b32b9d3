// The description that the lines of a case give, as its numbers and octets lie in the two arrays of the
// flat form.
// Two arrays with fixed places in them, as in the C interface.
ghost use Rattle.std.specs.Prelude.{◌≤◌};
ghost use Rattle.conformance.specs.declared.description.TheConstants.{MOST};

use crate::line::{Line, LineError, bits, choice, decimal};
use layout::{ASDU_NUMBERS, ASDU_OCTETS};

// A description of so many ASDUs can be given.
const MOST: usize = 10;

pub const NUMBERS: usize = layout::HEAD_NUMBERS + MOST * ASDU_NUMBERS;

pub const OCTETS: usize = layout::HEAD_OCTETS + MOST * ASDU_OCTETS;

// A writer is lent no numbers where a line that isn't understood says more than so many.
pub const SPACE: usize = 2304;

#[derive(Clone, Copy)]
pub struct Description {
    pub numbers: [u32; NUMBERS],
    pub octets: [u8; OCTETS],
    pub asdus: usize,
    ghost fit: { asdus ≤ MOST },
}

impl Description {
    // Nothing is given.
    pub fn empty() -> Description {
        Description {
            numbers: [0; NUMBERS],
            octets: [0; OCTETS],
            asdus: 0,
        }
    }

    // The numbers of the header and the ASDUs.
    pub fn given_numbers(&self) -> &[u32] {
        &self.numbers[..layout::HEAD_NUMBERS + self.asdus * ASDU_NUMBERS]
    }

    pub fn given_octets(&self) -> &[u8] {
        &self.octets[..layout::HEAD_OCTETS + self.asdus * ASDU_OCTETS]
    }

    // Starts the next ASDU.
    fn start_asdu(&mut self) -> Result<(), LineError> {
        if self.asdus == MOST {
            return Err(LineError::NotUnderstood);
        }
        self.asdus += 1;
        self.numbers[layout::NO_ASDU] = self.asdus as u32;
        Ok(())
    }

    // Puts a number at any place.
    fn put_number(&mut self, mut line: Line) -> Result<(), LineError> {
        let i: u32 = decimal(line.next())?;
        let n = decimal(line.next())?;
        line.end()?;
        if NUMBERS <= i as usize {
            return Err(LineError::NotUnderstood);
        }
        self.numbers[i as usize] = n;
        Ok(())
    }

    // Puts the VLAN tag.
    fn put_vlan(&mut self, mut line: Line) -> Result<(), LineError> {
        let tpid = bits(line.next())?;
        let tci = bits(line.next())?;
        line.end()?;
        self.numbers[layout::TAGGED] = 1;
        self.numbers[layout::TPID] = tpid;
        self.numbers[layout::TCI] = tci;
        Ok(())
    }

    // Takes a line of the numbers before the ASDUs, if it is one. A match of the format's words, here and
    // below: an enum of them would only add a second match.
    pub fn take_number(&mut self, line: Line) -> Result<bool, LineError> {
        match line.name {
            "vlan" => self.put_vlan(line)?,
            "ethertype" => self.numbers[layout::ETHER_TYPE] = one(line, bits)?,
            "appid" => self.numbers[layout::APPID] = one(line, bits)?,
            "length" => self.numbers[layout::LENGTH] = one(line, |text| decimal(text))?,
            "simulation" => {
                let is_on = one(line, |text| choice(text, "off", "on"))?;
                self.numbers[layout::SIMULATION] = u32::from(is_on);
            }
            "asdu" => {
                line.end()?;
                self.start_asdu()?;
            }
            "number" => self.put_number(line)?,
            _ => return Ok(false),
        }
        Ok(true)
    }

    // Takes a line of the octets before the ASDUs, if it is one.
    pub fn take_octets(&mut self, line: Line) -> Result<bool, LineError> {
        match line.name {
            "destination" => {
                let field = &mut self.octets[layout::DST_ADDR..layout::SRC_ADDR];
                let n = put(field, line)?;
                are_all(field, n)?;
            }
            "source" => {
                let field = &mut self.octets[layout::SRC_ADDR..layout::SECURITY_OCTETS];
                let n = put(field, line)?;
                are_all(field, n)?;
            }
            "security" => {
                let field = &mut self.octets[layout::SECURITY_OCTETS..layout::HEAD_OCTETS];
                let n = put(field, line)?;
                self.numbers[layout::SECURITY] = 1;
                self.numbers[layout::SECURITY_LENGTH] = n;
            }
            _ => return Ok(false),
        }
        Ok(true)
    }

    // Puts a number at a place of the last ASDU; there has to be one.
    fn put_last(&mut self, place: usize, n: u32) -> Result<(), LineError> {
        let last = self.asdus.checked_sub(1).ok_or(LineError::NotUnderstood)?;
        let at = layout::HEAD_NUMBERS + last * ASDU_NUMBERS;
        if let Some(number) = self.numbers.get_mut(at.saturating_add(place)) {
            *number = n;
        }
        Ok(())
    }

    // Takes a line of the numbers of the last ASDU, if it is one.
    pub fn take_asdu_number(&mut self, line: Line) -> Result<bool, LineError> {
        let (place, mark) = match line.name {
            "smpCnt" => (layout::SMP_CNT, None),
            "confRev" => (layout::CONF_REV, None),
            "smpSynch" => (layout::SMP_SYNCH, None),
            "smpRate" => (layout::SMP_RATE_VALUE, Some(layout::SMP_RATE)),
            "smpMod" => (layout::SMP_MOD_VALUE, Some(layout::SMP_MOD)),
            _ => return Ok(false),
        };
        let n = one(line, |text| decimal(text))?;
        self.put_last(place, n)?;
        if let Some(mark) = mark {
            self.put_last(mark, 1)?;
        }
        Ok(true)
    }

    // Takes a line of the octets of the last ASDU, if it is one. Before there is an ASDU they are put too, at
    // the place of the first.
    pub fn take_asdu_octets(&mut self, line: Line) -> Result<bool, LineError> {
        let last = self.asdus.saturating_sub(1);
        let at = layout::HEAD_OCTETS + last * ASDU_OCTETS;
        let octets = &mut self.octets[at..at + ASDU_OCTETS];
        match line.name {
            "svID" => {
                let n = put(
                    &mut octets[layout::SV_ID_OCTETS..layout::DAT_SET_OCTETS],
                    line,
                )?;
                self.put_last(layout::SV_ID_LENGTH, n)?;
            }
            "datSet" => {
                let n = put(
                    &mut octets[layout::DAT_SET_OCTETS..layout::REFR_TM_OCTETS],
                    line,
                )?;
                self.put_last(layout::DAT_SET, 1)?;
                self.put_last(layout::DAT_SET_LENGTH, n)?;
            }
            "refrTm" => {
                let n = put(
                    &mut octets[layout::REFR_TM_OCTETS..layout::GM_IDENTITY_OCTETS],
                    line,
                )?;
                self.put_last(layout::REFR_TM, 1)?;
                are_eight(n)?;
            }
            "gmIdentity" => {
                let n = put(&mut octets[layout::GM_IDENTITY_OCTETS..], line)?;
                self.put_last(layout::GM_IDENTITY, 1)?;
                are_eight(n)?;
            }
            _ => return Ok(false),
        }
        Ok(true)
    }
}

// What the one word that is left of a line stands for.
fn one<T: Drop, F: FnOnce(&str) -> Result<T, LineError>>(
    mut line: Line,
    of: F,
) -> Result<T, LineError>
    requires { F.IsAlwaysCallable of }
{
    let found = of(line.next())?;
    line.end()?;
    Ok(found)
}

// Puts the octets that a line gives into a field, and answers how many they are.
fn put(field: &mut [u8], mut line: Line) -> Result<u32, LineError> {
    let n = line.octets(field)?;
    line.end()?;
    Ok((n % 0x1_0000_0000) as u32)
}

// Whether octets that were put are as many as the field has.
fn are_all(field: &[u8], n: u32) -> Result<(), LineError> {
    if n as usize != field.len() {
        return Err(LineError::NotUnderstood);
    }
    Ok(())
}

// Whether so many octets are those of refrTm or gmIdentity.
fn are_eight(n: u32) -> Result<(), LineError> {
    if n != 8 {
        return Err(LineError::NotUnderstood);
    }
    Ok(())
}
