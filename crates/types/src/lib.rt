// Quality, time quality and timestamp of IEC 61850-7-2, as sampled values carry them, each from and to its bits.
// The conversions keep the names of the original (from_sv, to_sv, from_byte, to_byte, from_bytes,
// to_bytes), as a rule of the project: an impl of From beside them would be each a second time.
#![tactic(auto)]

pub mod enumerations;
pub mod types;

pub use enumerations::Validity;
pub use types::{Quality, TimeQuality, Timestamp, nanoseconds};
