// Quality, time quality and timestamp of IEC 61850-7-2, from and to the bits that are sent.
ghost use Rattle.std.specs.Prelude.{◌≡◌, ◌+◌, ◌*◌, ◌≤◌, cond};
ghost use Rattle.types.specs.Quality.{quality_of, word_of, good};
ghost use Rattle.types.specs.Time.{time_quality_of, octet_of, accuracy_bits_of, timestamp_of, timestamp_octets, nanoseconds_of};

use crate::enumerations::Validity;

// Quality of a sampled value: its validity, bits 0 and 1 of the quality word, and eleven flags, bits 2 to 12 in this order.
#[derive(Clone, Copy)]
pub struct Quality {
    pub validity: Validity,
    pub overflow: bool,
    pub out_of_range: bool,
    pub bad_reference: bool,
    pub oscillatory: bool,
    pub failure: bool,
    pub old_data: bool,
    pub inconsistent: bool,
    pub inaccurate: bool,
    pub source_substituted: bool,
    pub test: bool,
    pub operator_blocked: bool,
}

impl Quality {
    // The quality that a quality word gives. Bits 13 to 31 are dropped.
    pub fn from_sv(word: u32) -> Quality
        ensures { result ≡ quality_of word }
    {
        Quality {
            validity: Validity::from_sv(word),
            overflow: word / 4 % 2 == 1,
            out_of_range: word / 8 % 2 == 1,
            bad_reference: word / 16 % 2 == 1,
            oscillatory: word / 32 % 2 == 1,
            failure: word / 64 % 2 == 1,
            old_data: word / 128 % 2 == 1,
            inconsistent: word / 256 % 2 == 1,
            inaccurate: word / 512 % 2 == 1,
            source_substituted: word / 1024 % 2 == 1,
            test: word / 2048 % 2 == 1,
            operator_blocked: word / 4096 % 2 == 1,
        }
    }

    // The quality word: bits 13 to 31 are zero.
    pub fn to_sv(self) -> u32
        ensures { result ≡ word_of self }
    {
        self.validity.to_sv()
            + flag(self.overflow, 4)
            + flag(self.out_of_range, 8)
            + flag(self.bad_reference, 16)
            + flag(self.oscillatory, 32)
            + flag(self.failure, 64)
            + flag(self.old_data, 128)
            + flag(self.inconsistent, 256)
            + flag(self.inaccurate, 512)
            + flag(self.source_substituted, 1024)
            + flag(self.test, 2048)
            + flag(self.operator_blocked, 4096)
    }

    // Whether validity is good and no flag is set.
    #[tactic(auto, using(crate::specs::Laws::good_word))]
    pub fn is_good(self) -> bool
        ensures { result ≡ good self }
    {
        self.to_sv() == 0
    }
}

// The weight where the flag is set, else 0.
fn flag(set: bool, weight: u32) -> u32
    ensures value { result ≡ cond set weight 0 }
    ensures upper_bound { result ≤ weight }
{
    if set { weight } else { 0 }
}

// Quality of a timestamp. From the highest bit of its octet down: the three flags in this order, and five bits of
// time_accuracy.
#[derive(Clone, Copy)]
pub struct TimeQuality {
    pub leap_second_known: bool,
    pub clock_failure: bool,
    pub clock_not_synchronized: bool,
    pub time_accuracy: u8,
}

impl TimeQuality {
    // The time quality that an octet gives.
    pub fn from_byte(byte: u8) -> TimeQuality
        ensures { result ≡ time_quality_of byte }
    {
        TimeQuality {
            leap_second_known: byte / 128 % 2 == 1,
            clock_failure: byte / 64 % 2 == 1,
            clock_not_synchronized: byte / 32 % 2 == 1,
            time_accuracy: byte % 32,
        }
    }

    // Its octet. The low five bits of time_accuracy count.
    pub fn to_byte(self) -> u8
        ensures { result ≡ octet_of self }
    {
        let accuracy = self.time_accuracy % 32;
        (accuracy as u32
            + flag(self.clock_not_synchronized, 32)
            + flag(self.clock_failure, 64)
            + flag(self.leap_second_known, 128)) as u8
    }

    // How many bits of a fraction are accurate, 0 to 25; none where 26 to 30 are invalid, and 31 is
    // unspecified.
    pub fn accuracy_bits(self) -> Option<u8>
        ensures { result ≡ accuracy_bits_of self }
    {
        let accuracy = self.time_accuracy;
        if accuracy <= 25 { Some(accuracy) } else { None }
    }
}

// Seconds since 1 January 1970, a fraction of a second in units of 2^-24, and the quality of both.
#[derive(Clone, Copy)]
pub struct Timestamp {
    pub seconds: u32,
    pub fraction: u32,
    pub quality: TimeQuality,
}

// The octets of a timestamp: four of seconds, three of fraction, one of quality, each big-endian.
pub type TimestampOctets = [u8; 8];

impl Timestamp {
    // The timestamp that octets give.
    pub fn from_bytes(bytes: TimestampOctets) -> Timestamp
        ensures { result ≡ timestamp_of bytes }
    {
        Timestamp {
            seconds: u32::from_be_bytes([bytes[0], bytes[1], bytes[2], bytes[3]]),
            fraction: u32::from_be_bytes([0, bytes[4], bytes[5], bytes[6]]),
            quality: TimeQuality::from_byte(bytes[7]),
        }
    }

    // Its octets. The low 24 bits of fraction count.
    pub fn to_bytes(self) -> TimestampOctets
        ensures { result ≡ timestamp_octets self }
    {
        let s = self.seconds.to_be_bytes();
        let f = self.fraction.to_be_bytes();
        let last = self.quality.to_byte();
        [s[0], s[1], s[2], s[3], f[1], f[2], f[3], last]
    }

    // The fraction in nanoseconds.
    pub fn fraction_as_nanos(self) -> u32
        ensures { result ≡ nanoseconds_of self.fraction }
    {
        nanoseconds(self.fraction)
    }
}

// Nanoseconds of a fraction in units of 2^-24, rounded down. Its low 24 bits count.
pub fn nanoseconds(fraction: u32) -> u32
    ensures { result ≡ nanoseconds_of fraction }
{
    let f = (fraction % 16777216) as u64;
    (f * 1000000000 / 16777216) as u32
}
