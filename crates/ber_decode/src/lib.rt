// Steps over received octets (X.690): a cursor by value, whose steps hand back the next one, as a rule
// of the project.
#![tactic(auto)]

ghost use Rattle.std.specs.Prelude.{◌≡◌, ◌+◌, ◌-◌, ◌≤◌, ◌<◌, ◌^◌, length, ltb};
ghost use Rattle.definition.specs.Read.{be_at, head_at, number_at, span_at, has_at};
ghost use Rattle.rt_services.specs.Reasons.{reason_number};
ghost use Rattle.definition.specs.Limits.{ends_too_soon};
ghost use Rattle.ber_decode.specs.Told.{told_at, numbered_at, found, head_of, span_from, width_octets};

use rt_services::{Reason, Refusal};

// A place in the received octets.
#[derive(Clone, Copy)]
pub struct Cursor {
    pub at: usize,
}

// A tag, and the length after it.
#[derive(Clone, Copy)]
pub struct Head {
    pub tag: u8,
    pub len: usize,
}

// Octets: the place of the first, and how many they are.
#[derive(Clone, Copy)]
pub struct Span {
    pub at: usize,
    pub len: usize,
}

// A refusal by a number, which may be one of the caller's own, and its place.
#[derive(Clone, Copy, PartialEq, Eq)]
pub struct Numbered {
    pub number: usize,
    pub place: usize,
}

// The octets of an integer field.
#[derive(Clone, Copy)]
pub enum Width {
    One = 1,
    Two = 2,
    Four = 4,
}

// The big-endian number of the n octets from at: the library's `from_be_bytes` takes an array of a
// fixed length, which would be filled first. Place and number here and below, and no slice: the
// definitions are of these.
pub fn be(s: &[u8], at: usize, n: usize) -> u32
    requires { (n ≤ 4) × (at + n ≤ length s.now) }
    ensures { result ≡ be_at s.now at n }
{
    let mut value: u32 = 0;
    for i in 0..n {
        value = value * 256 + s[at + i] as u32;
    }
    value
}

// The n octets from at, sign-extended to width octets: of widths of 1, 2 and 4 and any n up to them,
// where a conversion of the library is of one width.
fn extended(s: &[u8], at: usize, width: usize, n: usize) -> u32
    requires { (n ≤ width) × (width ≤ 4) × (at + n ≤ length s.now) }
    ensures { result ≡ be_at s.now at n + (256 ^ width - 256 ^ n) }
{
    let value = be(s, at, n);
    let whole = value as u64 + ((1u64 << (8 * width)) - (1u64 << (8 * n)));
    whole as u32
}

// An integer of len octets from at, in a field of width octets. The width is a number here, since
// `extended` calculates with it.
fn integer_of(s: &[u8], at: usize, width: usize, len: usize) -> Result<(u32, Cursor), Refusal>
    requires { (1 ≤ width) × (width ≤ 4) × (at + len < 2 ^ 64) }
    ensures { told_at result ≡ number_at width s.now at len }
{
    if s.len() <= at || s.len() - at < len {
        return Err(Reason::EndsTooSoon.at(at));
    }
    let first = s[at];
    let after = Cursor { at: at + len };
    if len <= width {
        if first < 0x80 {
            return Ok((be(s, at, len), after));
        }
        return Ok((extended(s, at, width, len), after));
    }
    if width + 1 < len || 0 < first || s[at + 1] < 0x80 {
        return Err(Reason::IntegerTooLong.at(at));
    }
    Ok((be(s, at + 1, width), after))
}

// Octets end too soon, from a place on.
fn ended(place: usize) -> Numbered
    ensures { (result.number ≡ ends_too_soon) × (result.place ≡ place) }
{
    Numbered {
        number: Reason::EndsTooSoon.number(),
        place,
    }
}

impl Width {
    pub fn octets(self) -> usize
        ensures { result ≡ width_octets self }
    {
        self as usize
    }
}

impl Cursor {
    // Whether place and length add up to less than 2^64.
    fn sum_fits(self, len: usize) -> bool
        ensures { result ≡ ltb (self.at + len) (2 ^ 64) }
    {
        self.at.checked_add(len).is_some()
    }

    // A tag and its length.
    pub fn head(self, s: &[u8]) -> Result<(Head, Cursor), Refusal>
        ensures { told_at result ≡ found head_of (head_at s.now self.at) }
    {
        let at = self.at;
        if s.len() <= at || s.len() - at < 2 {
            return Err(Reason::EndsTooSoon.at(at));
        }
        let tag = s[at];
        let first = s[at + 1];
        if first < 0x80 {
            let len = first as usize;
            return Ok((Head { tag, len }, Cursor { at: at + 2 }));
        }
        if first == 0x80 || 0x84 <= first {
            return Err(Reason::BadLength.at(at));
        }
        let more = (first - 0x80) as usize;
        if s.len() - at < more + 2 {
            return Err(Reason::EndsTooSoon.at(at));
        }
        let len = be(s, at + 2, more) as usize;
        Ok((Head { tag, len }, Cursor { at: at + 2 + more }))
    }

    // An integer of len octets, in a field of this width.
    pub fn integer(self, s: &[u8], width: Width, len: usize) -> Result<(u32, Cursor), Refusal>
        ensures { told_at result ≡ number_at (width_octets width) s.now self.at len }
    {
        if !self.sum_fits(len) {
            return Err(Reason::EndsTooSoon.at(s.len()));
        }
        self.integer_after(s, width, len)
    }

    // The same where place and length stay below 2^64, as they do after a tag and its length: two
    // functions, since the readers would make the test of the sum for nothing.
    pub fn integer_after(self, s: &[u8], width: Width, len: usize) -> Result<(u32, Cursor), Refusal>
        requires { self.at + len < 2 ^ 64 }
        ensures { told_at result ≡ number_at (width_octets width) s.now self.at len }
    {
        integer_of(s, self.at, width.octets(), len)
    }

    // len octets; above limit they are refused with that number, whichever it is. `integer` and this
    // answer other things, so that they are no one function.
    pub fn octets(
        self,
        s: &[u8],
        number: usize,
        limit: usize,
        len: usize,
    ) -> Result<(Span, Cursor), Numbered>
        ensures { numbered_at result ≡ found (span_from self.at len) (span_at number limit s.now self.at len) }
    {
        if !self.sum_fits(len) {
            return Err(ended(s.len()));
        }
        self.octets_after(s, number, limit, len)
    }

    // The same where place and length stay below 2^64.
    pub fn octets_after(
        self,
        s: &[u8],
        number: usize,
        limit: usize,
        len: usize,
    ) -> Result<(Span, Cursor), Numbered>
        requires { self.at + len < 2 ^ 64 }
        ensures { numbered_at result ≡ found (span_from self.at len) (span_at number limit s.now self.at len) }
    {
        let at = self.at;
        if at > s.len() || len > s.len() - at {
            return Err(ended(at));
        }
        if limit < len {
            return Err(Numbered { number, place: at });
        }
        Ok((Span { at, len }, Cursor { at: at + len }))
    }

    // len octets; above limit they are refused for that reason: beside `octets`, as a refusal has a reason,
    // and not every number is one's. Reason and limit are two parameters here and in decode_asdu, as a
    // struct of the two would be made at each call and taken apart at once.
    pub fn octets_for(
        self,
        s: &[u8],
        reason: Reason,
        limit: usize,
        len: usize,
    ) -> Result<(Span, Cursor), Refusal>
        ensures { told_at result ≡ found (span_from self.at len) (span_at (reason_number reason) limit s.now self.at len) }
    {
        if !self.sum_fits(len) {
            return Err(Reason::EndsTooSoon.at(s.len()));
        }
        self.octets_for_after(s, reason, limit, len)
    }

    // The same where place and length stay below 2^64.
    pub fn octets_for_after(
        self,
        s: &[u8],
        reason: Reason,
        limit: usize,
        len: usize,
    ) -> Result<(Span, Cursor), Refusal>
        requires { self.at + len < 2 ^ 64 }
        ensures { told_at result ≡ found (span_from self.at len) (span_at (reason_number reason) limit s.now self.at len) }
    {
        let at = self.at;
        if s.len() < at || s.len() - at < len {
            return Err(Reason::EndsTooSoon.at(at));
        }
        if limit < len {
            return Err(reason.at(at));
        }
        Ok((Span { at, len }, Cursor { at: at + len }))
    }

    // Whether the next octet is this tag.
    pub fn has(self, s: &[u8], tag: u8) -> bool
        ensures { result ≡ has_at s.now self.at tag }
    {
        s.get(self.at) == Some(&tag)
    }
}
