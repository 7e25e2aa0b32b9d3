// The arrays that a call is lent, and what it leaves in them.
use std::num::f32_to_bits_with_nan;

// What a size or a place is before a call.
pub const NUMBER: usize = 77;

// An element of an array.
pub trait Element: Copy + PartialEq {
    // Before a call: 4D in each of its octets.
    const LENT: Self;

    // By `==`, but for floats, of which a NaN is the same as a NaN.
    fn is_same(self, other: Self) -> bool {
        self == other
    }
}

impl Element for u8 {
    const LENT: u8 = 0x4d;
}

impl Element for u32 {
    const LENT: u32 = 0x4d4d4d4d;
}

impl Element for i32 {
    const LENT: i32 = 0x4d4d4d4d;
}

impl Element for f32 {
    const LENT: f32 = 215274704.0;

    // The same bits; every NaN is one.
    fn is_same(self, other: f32) -> bool {
        f32_to_bits_with_nan(self) == f32_to_bits_with_nan(other)
    }
}

// Whether an array has what is given, and past it what it had before the call.
pub fn is_filled<T: Element>(got: &[T], given: &[T]) -> bool {
    let Some((filled, rest)) = got.split_at_checked(given.len()) else {
        return false;
    };
    filled.iter().zip(given).all(|(x, y)| x.is_same(*y)) && rest.iter().all(|x| x.is_same(T::LENT))
}
