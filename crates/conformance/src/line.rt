// A line, its words, and what they stand for.
ghost use Rattle.std.specs.Prelude.{◌<◌};
ghost use Rattle.std.specs.Option.{IfSome};

use crate::case::LONGEST;
use std::io;
use std::num::f32_from_bits_with_nan;
use std::str::FromStr;

// Why a line isn't taken: it isn't of the format, or output fails.
#[derive(Debug, Drop)]
pub enum LineError {
    NotUnderstood,
    Io(io::Error),
}

impl From<io::Error> for LineError {
    fn from(e: io::Error) -> LineError {
        LineError::Io(e)
    }
}

// A line: its first word, and what stands after the space behind it.
#[derive(Clone, Copy)]
pub struct Line<'a> {
    pub name: &'a str,
    rest: &'a str,
}

// A text up to its first space, and what stands after that.
fn split(text: &str) -> (&str, &str) {
    text.split_once(' ').unwrap_or((text, ""))
}

impl<'a> Line<'a> {
    pub fn new(text: &'a str) -> Line<'a> {
        let (name, rest) = split(text);
        Line { name, rest }
    }

    // Whether nothing is left; a space after the last word may stand there.
    pub fn is_end(&self) -> bool {
        self.rest.is_empty()
    }

    pub fn end(self) -> Result<(), LineError> {
        if self.is_end() {
            Ok(())
        } else {
            Err(LineError::NotUnderstood)
        }
    }

    // The next word; an empty one at the end.
    pub fn next(&mut self) -> &'a str {
        let (word, rest) = split(self.rest);
        self.rest = rest;
        word
    }

    // All that is left.
    pub fn left(self) -> &'a str {
        self.rest
    }

    // Puts the octets that the next word stands for into a field, as many as it has room for, with zeros
    // after them; and answers how many they are. Those before a wrong digit are put too.
    pub fn octets(&mut self, field: &mut [u8]) -> Result<usize, LineError> {
        let text = self.next();
        if text == "-" {
            field.fill(0);
            return Ok(0);
        }
        if text.is_empty() {
            return Err(LineError::NotUnderstood);
        }
        for (i, digits) in text.as_bytes().chunks(2).take(LONGEST).enumerate() {
            let octet = octet_of(digits).ok_or(LineError::NotUnderstood)?;
            if let Some(place) = field.get_mut(i) {
                *place = octet;
            }
        }
        let n = text.len() - text.len() / 2;
        if let Some(rest) = field.get_mut(n..) {
            rest.fill(0);
        }
        if LONGEST < n {
            return Err(LineError::NotUnderstood);
        }
        Ok(n)
    }

    // Puts what each word that is left stands for into a list, with zeros after them; and answers how many
    // they are. A wrong word leaves its item as it was.
    pub fn list<T: Default + Copy, F: Fn(&str) -> Result<T, LineError>>(
        mut self,
        list: &mut [T],
        item: F,
    ) -> Result<usize, LineError>
        requires { F.IsAlwaysCallable item }
    {
        let mut n: usize = 0;
        let mut is_right = true;
        for place in list.iter_mut() {
            if self.is_end() {
                *place = T::default();
                continue;
            }
            n = n.saturating_add(1);
            match item(self.next()) {
                Ok(found) => *place = found,
                Err(_) => is_right = false,
            }
        }
        self.end()?;
        if !is_right {
            return Err(LineError::NotUnderstood);
        }
        Ok(n)
    }
}

// The value of a hexadecimal digit, none of them a capital letter.
fn digit(c: u8) -> Option<u8>
    ensures { IfSome result (λ d. d < 16) }
{
    match c {
        b'0'..=b'9' => Some(c - b'0'),
        b'a'..=b'f' => Some(c - b'a' + 10),
        _ => None,
    }
}

// The octet of two digits.
fn octet_of(digits: &[u8]) -> Option<u8> {
    let [high, low] = digits else {
        return None;
    };
    digit(*high)?.checked_mul(16)?.checked_add(digit(*low)?)
}

// The one number of 64 bits that the list can't say.
const UNSAYABLE: &str = "9999999999999999999";

// A decimal number without a sign.
pub fn decimal<T: FromStr>(text: &str) -> Result<T, LineError>
where
    T::Err: Drop,
{
    let is_number = text.bytes().all(|b| b.is_ascii_digit());
    if !is_number || text.trim_start_matches('0') == UNSAYABLE {
        return Err(LineError::NotUnderstood);
    }
    text.parse().map_err(|_| LineError::NotUnderstood)
}

pub fn count(text: &str) -> Result<i32, LineError> {
    let digits = text.strip_prefix('-').unwrap_or(text);
    if !digits.bytes().all(|b| b.is_ascii_digit()) {
        return Err(LineError::NotUnderstood);
    }
    text.parse().map_err(|_| LineError::NotUnderstood)
}

// A hexadecimal number of 32 bits.
pub fn bits(text: &str) -> Result<u32, LineError> {
    if !text.bytes().all(|c| digit(c).is_some()) {
        return Err(LineError::NotUnderstood);
    }
    u32::from_str_radix(text, 16).map_err(|_| LineError::NotUnderstood)
}

// The float with these 32 bits; every NaN is one.
pub fn float(text: &str) -> Result<f32, LineError> {
    Ok(f32_from_bits_with_nan(bits(text)?))
}

// The tag of an element.
pub fn tag(text: &str) -> Result<u8, LineError> {
    u8::try_from(bits(text)?).map_err(|_| LineError::NotUnderstood)
}

// Whether a word is the second of two. A bool, as the calls and the description take it.
pub fn choice(text: &str, no: &str, yes: &str) -> Result<bool, LineError> {
    if text == yes {
        return Ok(true);
    }
    if text == no {
        return Ok(false);
    }
    Err(LineError::NotUnderstood)
}

// Whether the counters are of fixed form.
pub fn is_fixed(text: &str) -> Result<bool, LineError> {
    choice(text, "shortest", "fixed")
}
