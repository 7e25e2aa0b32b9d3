// Writers of tag, length and content into a lent slice. The `put_` writers trust that there is
// room; the `encode_` ones ask for it first.
// They take a lent slice and a place, as the original's do and as the C interface lends: from a
// struct of both the place would be written back after every step.
#![tactic(auto)]

ghost use Rattle.std.specs.Prelude.{◌≡◌, ◌∷◌, ◌+◌, ◌-◌, ◌/◌, ◌%◌, ◌≤◌, ◌<◌, length};
ghost use Rattle.definition.specs.Limits.{length_limit};
ghost use Rattle.definition.specs.Octets.{octets, length_more, length_octets, uint_size, uint_octets, tlv};
ghost use Rattle.definition.specs.Answers.{encode_tag_length, encode_ber};
ghost use Rattle.ber_encode.specs.Put.{Wrote};
ghost use Rattle.ber_encode.specs.Size.{length_size, tlv_size};
ghost use Rattle.ber_encode.specs.Told.{refused_as};
ghost use Rattle.rt_services.specs.Reasons.{told};
ghost use Rattle.rt_services.specs.Told.{WritesAt};

use rt_services::{Reason, Refusal};

// A length below this can be written.
const LENGTH_LIMIT: usize = 16777216;

// How many octets follow 81, 82 or 83 in the length n, from 128 on.
#[tactic(auto, unfolding(definition::specs::Octets::length_more))]
fn length_more(n: usize) -> usize
    ensures { result ≡ length_more n }
{
    if n < 256 {
        return 1;
    }
    if n < 65535 {
        return 2;
    }
    3
}

// How many octets the length `value` is written in.
pub fn size_length(value: usize) -> usize
    ensures { result ≡ length_size value }
{
    if value < 128 {
        return 1;
    }
    1 + length_more(value)
}

// How many content octets an unsigned integer is written in, from its leading zero bits.
pub fn unsigned_integer_length(value: u32) -> usize
    ensures { result ≡ uint_size value }
{
    ((32 - value.leading_zeros()) / 8 + 1) as usize
}

// How many octets an element is written in: tag, length and n octets of content.
pub fn tlv_size(n: usize) -> usize
    requires { n < length_limit }
    ensures { result ≡ tlv_size n }
{
    1 + size_length(n) + n
}

// The k low octets of v, highest first: k is 1 to 5, where the library's `to_be_bytes` is of a fixed
// length.
pub fn put_octets(buffer: &mut [u8], at: usize, k: usize, v: u32) -> usize
    requires { at + k ≤ length buffer.old }
    ensures { Wrote buffer.old at (octets k v) buffer.new result }
{
    let mut x = v;
    for j in (0..k).rev() {
        buffer[at + j] = (x % 256) as u8;
        x /= 256;
    }
    at + k
}

// The octets of src.
pub fn put_bytes(buffer: &mut [u8], at: usize, src: &[u8]) -> usize
    requires { at + length src.now ≤ length buffer.old }
    ensures { Wrote buffer.old at src.now buffer.new result }
{
    let end = at + src.len();
    rt_services::copy_all(&mut buffer[at..end], src);
    end
}

// A tag and the length n, which is a sum of sizes: its limit is asked here, and is not in its type.
pub fn put_tag_length(buffer: &mut [u8], at: usize, tag: u8, n: usize) -> usize
    requires { (at + 1 + length_size n ≤ length buffer.old) × (n < length_limit) }
    ensures { Wrote buffer.old at (tag ∷ length_octets n) buffer.new result }
{
    buffer[at] = tag;
    let p = at + 1;
    if n < 128 {
        buffer[p] = n as u8;
        return p + 1;
    }
    let k = length_more(n);
    buffer[p] = (0x80 + k) as u8;
    put_octets(buffer, p + 1, k, n as u32)
}

// The k low octets of v, highest first, with their tag.
pub fn put_number(buffer: &mut [u8], at: usize, tag: u8, k: usize, v: u32) -> usize
    requires { (at + length (tlv tag (octets k v)) ≤ length buffer.old) × (k < length_limit) }
    ensures { Wrote buffer.old at (tlv tag (octets k v)) buffer.new result }
{
    let p = put_tag_length(buffer, at, tag, k);
    put_octets(buffer, p, k, v)
}

// An unsigned integer with its tag.
pub fn put_uint(buffer: &mut [u8], at: usize, tag: u8, v: u32) -> usize
    requires { at + length (tlv tag (uint_octets v)) ≤ length buffer.old }
    ensures { Wrote buffer.old at (tlv tag (uint_octets v)) buffer.new result }
{
    put_number(buffer, at, tag, unsigned_integer_length(v), v)
}

// Octets with their tag.
pub fn put_string(buffer: &mut [u8], at: usize, tag: u8, src: &[u8]) -> usize
    requires { (at + length (tlv tag src.now) ≤ length buffer.old) × (length src.now < length_limit) }
    ensures { Wrote buffer.old at (tlv tag src.now) buffer.new result }
{
    let p = put_tag_length(buffer, at, tag, src.len());
    put_bytes(buffer, p, src)
}

// Refuses an element that has no room, or that tells a length of 2^24 or more. Its tag stands at
// `at`, with `size` length octets that tell the length n, and `content` octets after them.
#[tactic(auto, using(crate::specs::Told::as_no_room, crate::specs::Told::as_too_long, crate::specs::Told::as_none))]
fn check_room(room: usize, at: usize, size: usize, content: usize, n: usize) -> Result<(), Refusal>
    ensures { told result ≡ refused_as room (at + (1 + size + content)) n }
{
    let left = room.saturating_sub(at).saturating_sub(content);
    if left <= size {
        return Err(Reason::NoRoom.at(0));
    }
    if LENGTH_LIMIT <= n {
        return Err(Reason::TooLongToWrite.at(0));
    }
    Ok(())
}

// A tag and the length `value`.
pub fn encode_tag_length(
    tag: u8,
    value: usize,
    buffer: &mut [u8],
    at: usize,
) -> Result<usize, Refusal>
    ensures { WritesAt (encode_tag_length (length buffer.old) at tag value) at (tag ∷ length_octets value) buffer.old result buffer.new }
{
    check_room(buffer.len(), at, size_length(value), 0, value)?;
    Ok(put_tag_length(buffer, at, tag, value))
}

// An unsigned integer with its tag.
pub fn encode_unsigned_integer(
    tag: u8,
    value: u32,
    buffer: &mut [u8],
    at: usize,
) -> Result<usize, Refusal>
    ensures { WritesAt (encode_ber (length buffer.old) at tag (uint_octets value)) at (tlv tag (uint_octets value)) buffer.old result buffer.new }
{
    let size = unsigned_integer_length(value);
    check_room(buffer.len(), at, size_length(size), size, size)?;
    Ok(put_uint(buffer, at, tag, value))
}

// Octets with their tag.
pub fn encode_octet_string(
    tag: u8,
    value: &[u8],
    buffer: &mut [u8],
    at: usize,
) -> Result<usize, Refusal>
    ensures { WritesAt (encode_ber (length buffer.old) at tag value.now) at (tlv tag value.now) buffer.old result buffer.new }
{
    let size = value.len();
    check_room(buffer.len(), at, size_length(size), size, size)?;
    Ok(put_string(buffer, at, tag, value))
}
