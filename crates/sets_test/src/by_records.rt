// A frame read by the calls that answer records. A record that is read is written again, as the octets
// of a reading; the frame's size and Length are its first two numbers.
use crate::Frame;
use crate::readings::{Arrays, Reading, SetBits};
use rt_services::{SavDataSetConfig, SavRead};
use set_store::DataSets;

// The set of a reading that is refused, which hands none back.
pub const NO_SET: SavDataSetConfig = SavDataSetConfig {
    channels: 0,
    scale_factor: [0.0; SavDataSetConfig::MAX_CHANNELS],
};

// Writes what was read again, beside its samples.
fn write_again(read: SavRead, channels: usize, arrays: &mut Arrays) {
    let written = encode_smv::encode_smv(
        read.header,
        read.pdu,
        channels,
        false,
        &arrays.counts,
        &arrays.words,
        &mut arrays.octets,
    );
    if let Ok(size) = written {
        arrays.numbers[0] = (size % 65536) as u32;
        arrays.numbers[1] = u32::from(read.header.length);
    }
}

// A frame by its confRev, with room for so many counts and quality words.
pub fn by_sets(frame: &[u8], room: usize, store: &DataSets) -> Reading {
    let mut arrays = Arrays::LENT;
    let n = room.min(SavDataSetConfig::MAX_SAMPLES);
    let got = read_by_sets::read_by_sets(
        frame,
        store,
        &mut arrays.counts[..n],
        &mut arrays.words[..n],
    );
    let mut set = NO_SET;
    if let Ok(by) = got {
        set = by.set;
        write_again(by.read, set.channels, &mut arrays);
    }
    Reading {
        answer: got.map(|_| ()),
        set: SetBits::from(set),
        arrays,
    }
}

// A frame by ordinary reading with a set: where it is accepted it is the frame that is written again.
// Apart from `by_sets`: the two leave other things in the arrays and the set.
pub fn ordinary(frame: &Frame, room: usize, set: SavDataSetConfig) -> Reading {
    let mut arrays = Arrays::LENT;
    let n = room.min(SavDataSetConfig::MAX_SAMPLES);
    let read = decode_smv::read_frame(
        frame.kept(),
        set.channels,
        &mut arrays.counts[..n],
        &mut arrays.words[..n],
    );
    arrays.numbers[0] = (frame.size % 65536) as u32;
    if let Ok(read) = read {
        arrays.numbers[1] = u32::from(read.header.length);
    }
    arrays.octets = frame.octets;
    Reading {
        answer: read.map(|_| ()),
        set: SetBits::from(set),
        arrays,
    }
}
