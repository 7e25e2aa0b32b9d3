// Octets that are read from the front, and the fields that stand in them: requests and answers have the layout of
// oracle/README.md, in which numbers are big-endian. A request is read with zeros after it, and a mark of it says that a field
// is there where it is 1; of an answer each octet counts.
ghost use Rattle.std.specs.Iterator.{at_most};

use std::marker::PhantomData;
use std::num::f32_from_bits_with_nan;

#[derive(Clone, Copy)]
pub struct Octets<'a> {
    pub rest: &'a [u8],
    // Whether zeros stand after them.
    is_padded: bool,
}

// A text: its length, and its octets, which are fewer where zeros stand after them.
#[derive(Clone, Copy)]
pub struct Text<'a> {
    pub len: usize,
    pub octets: &'a [u8],
}

// The first N octets, and zeros where there are fewer.
pub fn held<const N: usize>(s: &[u8]) -> [u8; N] {
    let mut held = [0; N];
    let n = s.len().min(N);
    held[..n].copy_from_slice(&s[..n]);
    held
}

// A field of the layout.
pub trait Field: Sized {
    // The field at the front; None where the octets are too few or no such field.
    fn of(octets: &mut Octets) -> Option<Self>;
}

impl<'a> Octets<'a> {
    // With nothing after them.
    pub fn new(rest: &'a [u8]) -> Octets<'a> {
        Octets {
            rest,
            is_padded: false,
        }
    }

    // The same with zeros after them.
    pub fn padded(self) -> Octets<'a> {
        Octets {
            rest: self.rest,
            is_padded: true,
        }
    }

    // The next n octets, or all that are left where zeros stand after them.
    pub fn take(&mut self, n: usize) -> Option<&'a [u8]> {
        let Some((front, rest)) = self.rest.split_at_checked(n) else {
            let front = self.is_padded.then_some(self.rest)?;
            self.rest = b"";
            return Some(front);
        };
        self.rest = rest;
        Some(front)
    }

    // The next N octets.
    pub fn array<const N: usize>(&mut self) -> Option<[u8; N]> {
        let Some((front, rest)) = self.rest.split_first_chunk::<N>() else {
            return Some(held(self.take(N)?));
        };
        self.rest = rest;
        Some(*front)
    }

    // The next field.
    pub fn next<T: Field>(&mut self) -> Option<T> {
        T::of(self)
    }

    // The next text.
    pub fn text(&mut self) -> Option<Text<'a>> {
        let length: u16 = self.next()?;
        let len = length as usize;
        Some(Text {
            len,
            octets: self.take(len)?,
        })
    }

    // The next n fields; None where one isn't there.
    pub fn fields<T: Field + Drop>(&mut self, n: usize) -> Option<Fields<'a, T>> {
        let octets = *self;
        for _ in 0..n {
            let _field: T = self.next()?;
        }
        Some(Fields {
            octets,
            left: n,
            of: PhantomData,
        })
    }

    // Whether these are next: None where they aren't.
    pub fn has_octets(&mut self, s: &[u8]) -> Option<()> {
        self.rest = self.rest.strip_prefix(s)?;
        Some(())
    }

    // Whether this field is next.
    pub fn has<T: Field + PartialEq + Drop>(&mut self, field: T) -> Option<()> {
        let next: T = self.next()?;
        (next == field).then_some(())
    }

    pub fn is_empty(&self) -> bool {
        self.rest.is_empty()
    }

    // Whether none is left.
    pub fn end(self) -> Option<()> {
        self.rest.is_empty().then_some(())
    }
}

// Fields of one kind in a row.
#[derive(Clone, Copy)]
pub struct Fields<'a, T> {
    octets: Octets<'a>,
    left: usize,
    of: PhantomData<T>,
}

impl<'a, T> Fields<'a, T> {
    // No field.
    pub fn none() -> Fields<'a, T> {
        Fields {
            octets: Octets::new(b""),
            left: 0,
            of: PhantomData,
        }
    }

    // How many are left.
    pub fn len(&self) -> usize {
        self.left
    }
}

impl<'a, T: Field> Iterator for Fields<'a, T> {
    type Item = T;

    ghost remaining = { λ s. at_most s.left };

    fn next(&mut self) -> Option<T> {
        self.left = self.left.checked_sub(1)?;
        self.octets.next()
    }
}

impl Field for u8 {
    fn of(octets: &mut Octets) -> Option<u8> {
        Some(u8::from_be_bytes(octets.array()?))
    }
}

impl Field for u16 {
    fn of(octets: &mut Octets) -> Option<u16> {
        Some(u16::from_be_bytes(octets.array()?))
    }
}

impl Field for u32 {
    fn of(octets: &mut Octets) -> Option<u32> {
        Some(u32::from_be_bytes(octets.array()?))
    }
}

impl Field for i32 {
    fn of(octets: &mut Octets) -> Option<i32> {
        Some(i32::from_be_bytes(octets.array()?))
    }
}

impl Field for usize {
    fn of(octets: &mut Octets) -> Option<usize> {
        Some(usize::from_be_bytes(octets.array()?))
    }
}

// One NaN stands for all.
impl Field for f32 {
    fn of(octets: &mut Octets) -> Option<f32> {
        Some(f32_from_bits_with_nan(octets.next()?))
    }
}

// A mark.
impl Field for bool {
    fn of(octets: &mut Octets) -> Option<bool> {
        match octets.next()? {
            0u8 => Some(false),
            1 => Some(true),
            _ => octets.is_padded.then_some(false),
        }
    }
}

impl<const N: usize> Field for [u8; N] {
    fn of(octets: &mut Octets) -> Option<[u8; N]> {
        octets.array()
    }
}

impl<A: Field + Drop, B: Field> Field for (A, B) {
    fn of(octets: &mut Octets) -> Option<(A, B)> {
        let a = octets.next()?;
        let b = octets.next()?;
        Some((a, b))
    }
}

// A mark and the field that it is for: of an answer zero where the mark says that it is absent.
impl<T: Field + Default + PartialEq + Drop> Field for Option<T> {
    fn of(octets: &mut Octets) -> Option<Option<T>> {
        let present: bool = octets.next()?;
        let field: T = octets.next()?;
        if present {
            return Some(Some(field));
        }
        (octets.is_padded || field == T::default()).then_some(None)
    }
}
