// How an answer of this project stands to the Rust's: alike, or different for a reason that docs/DIFFERENCES.md has. Where a
// function answers no class, the difference is unexplained.
use std::fmt;

#[derive(Clone, Copy, PartialEq, Eq, PartialOrd, Ord)]
pub enum Class {
    Answered,
    Refused,
    // The Rust can't be asked.
    NotAsked,
    // Nanoseconds of a fraction of 2^24 or more.
    LargeFraction,
    // The Rust panics; ours is refusal 1 at the buffer length.
    PanicAtEnd,
    // The Rust's sum overflows; ours is refusal 7, place 0.
    PanicNoRoom,
    // The same number; our place is 0.
    Place0,
    // Refusal 10 of the length writer, which leaves the tag behind in the Rust.
    TagLeft,
    // Alike, with text that isn't UTF-8: the Rust's is the lossy reading of ours.
    Lossy,
    // More than 24 channels: refused 8.
    ManyChannels,
    // Refused 4, a limit that the Rust doesn't have: it answered, refused further on, or panicked further on.
    LimitAnswered,
    LimitRefused,
    LimitPanicked,
    // The Rust panics: the header isn't whole; fewer than 8 octets of refrTm; gmIdentity above 8 octets.
    PanicHeader,
    PanicRefrTm,
    PanicGmIdentity,
    // What can't be described here: half a VLAN tag; noASDU other than the number of ASDUs; numbers of samples that differ.
    HalfTag,
    OtherCount,
    Uneven,
    // Refused 9, place 0: the Rust answers, refuses 7 or 11, or panics.
    OutsideAnswered,
    OutsideRefused,
    OutsidePanicked,
    // Refused 10: a PDU above 1,492 octets.
    LongPdu,
    // Alike with bits 13 to 31 of quality words cleared; as they stand, refused 9.
    WideQuality,
    // Alike by the writer of counts; ASDUs with different scale factors can't be described to the writer of values.
    OtherScales,
    // The Rust's sum of index and length overflows, in the integer reader by itself; ours is refusal 1 at the buffer length.
    PanicSum,
    // Alike, and strict reading accepts it: it is what the writer writes again in the shortest form, in the fixed form, or in
    // both. With text that is UTF-8, and that isn't.
    Shortest,
    ShortestLossy,
    Fixed,
    FixedLossy,
    Both,
    BothLossy,
}

impl Class {
    // In their order.
    pub const ALL: [Class; 32] = [
        Class::Answered,
        Class::Refused,
        Class::NotAsked,
        Class::LargeFraction,
        Class::PanicAtEnd,
        Class::PanicNoRoom,
        Class::Place0,
        Class::TagLeft,
        Class::Lossy,
        Class::ManyChannels,
        Class::LimitAnswered,
        Class::LimitRefused,
        Class::LimitPanicked,
        Class::PanicHeader,
        Class::PanicRefrTm,
        Class::PanicGmIdentity,
        Class::HalfTag,
        Class::OtherCount,
        Class::Uneven,
        Class::OutsideAnswered,
        Class::OutsideRefused,
        Class::OutsidePanicked,
        Class::LongPdu,
        Class::WideQuality,
        Class::OtherScales,
        Class::PanicSum,
        Class::Shortest,
        Class::ShortestLossy,
        Class::Fixed,
        Class::FixedLossy,
        Class::Both,
        Class::BothLossy,
    ];
}

impl fmt::Display for Class {
    fn fmt<W: fmt::Write>(&self, f: &mut fmt::Formatter<W>) -> fmt::Result {
        f.write_str(match self {
            Class::Answered => "answered alike",
            Class::Refused => "refused alike",
            Class::NotAsked => "the Rust can't be asked",
            Class::LargeFraction => "fraction of 2^24 or more: nanoseconds of its low 24 bits",
            Class::PanicAtEnd => "the Rust panics: refused 1 at the buffer length",
            Class::PanicNoRoom => "the Rust panics: refused 7 at 0",
            Class::Place0 => "refused alike, at 0",
            Class::TagLeft => "refused alike, the buffer as lent",
            Class::Lossy => "answered alike, text that isn't UTF-8",
            Class::ManyChannels => "more than 24 channels: refused 8",
            Class::LimitAnswered => "above a limit: refused 4, the Rust answers",
            Class::LimitRefused => "above a limit: refused 4, the Rust refuses further on",
            Class::LimitPanicked => "above a limit: refused 4, the Rust panics further on",
            Class::PanicHeader => "the Rust panics, header: refused 1 at the buffer length",
            Class::PanicRefrTm => "the Rust panics, refrTm: refused 1 at its first content octet",
            Class::PanicGmIdentity => "the Rust panics, gmIdentity: refused 5",
            Class::HalfTag => "half a VLAN tag: can't be described",
            Class::OtherCount => "noASDU other than the number of ASDUs: can't be described",
            Class::Uneven => "numbers of samples that differ: can't be described",
            Class::OutsideAnswered => "outside the limits: refused 9, the Rust answers",
            Class::OutsideRefused => "outside the limits: refused 9, the Rust refuses",
            Class::OutsidePanicked => "outside the limits: refused 9, the Rust panics",
            Class::LongPdu => "PDU above 1,492 octets: refused 10",
            Class::WideQuality => {
                "answered alike, quality bits 13 to 31 cleared: refused 9 with them"
            }
            Class::OtherScales => {
                "answered alike, scale factors that differ: by the writer of counts"
            }
            Class::PanicSum => {
                "the Rust panics, index plus length of 2^64 or more: refused 1 at the buffer length"
            }
            Class::Shortest => "answered alike, strict reading accepts it in the shortest form",
            Class::ShortestLossy => {
                "answered alike, strict reading accepts it in the shortest form, text that isn't UTF-8"
            }
            Class::Fixed => "answered alike, strict reading accepts it in the fixed form",
            Class::FixedLossy => {
                "answered alike, strict reading accepts it in the fixed form, text that isn't UTF-8"
            }
            Class::Both => "answered alike, strict reading accepts it in both forms",
            Class::BothLossy => {
                "answered alike, strict reading accepts it in both forms, text that isn't UTF-8"
            }
        })
    }
}
