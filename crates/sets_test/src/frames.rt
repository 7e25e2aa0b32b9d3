// The frames: thirteen kinds for each row, of the row's confRev and channels.
// readings_test makes the header and most fields alike: a crate for these lines, with contracts and
// edits of its own, would be longer than they are.
use crate::draw::{below, draw};
use crate::{Frame, history};
use decode_smv::samples::signed;
use rt_services::{EthernetHeader, Presence, Refusal, SavAsdu, SavDataSetConfig, SavPdu, Vlan};
use std::array;

// What is done to a frame after it is written.
#[derive(Clone, Copy, PartialEq, Eq)]
pub enum Change {
    Nothing,
    // The last octet is cut off.
    LastOctet,
    // The frame ends after the confRev; before the confRev's last octet; or anywhere before that.
    AfterRevision,
    InRevision,
    BeforeRevision,
    // A length octet 80 after 60.
    BadLength,
    // noASDU 0.
    NoAsdu,
}

// A kind of frames: how many ASDUs, which of them has another confRev than the first, what is done to
// it, and whether it is read into short arrays.
#[derive(Clone, Copy)]
pub struct Kind {
    pub asdus: u16,
    pub other: Option<usize>,
    pub change: Change,
    pub is_short: bool,
}

// A frame of one ASDU, as it is written.
const WHOLE: Kind = Kind {
    asdus: 1,
    other: None,
    change: Change::Nothing,
    is_short: false,
};

pub const KINDS: [Kind; 13] = [
    WHOLE,
    Kind { asdus: 2, ..WHOLE },
    Kind {
        asdus: 3,
        is_short: true,
        ..WHOLE
    },
    Kind {
        asdus: 3,
        other: Some(1),
        ..WHOLE
    },
    Kind {
        asdus: 3,
        other: Some(2),
        ..WHOLE
    },
    Kind {
        asdus: 2,
        other: Some(1),
        change: Change::LastOctet,
        ..WHOLE
    },
    Kind {
        asdus: 2,
        other: Some(1),
        is_short: true,
        ..WHOLE
    },
    Kind {
        asdus: 2,
        change: Change::LastOctet,
        ..WHOLE
    },
    Kind {
        change: Change::AfterRevision,
        ..WHOLE
    },
    Kind {
        change: Change::InRevision,
        ..WHOLE
    },
    Kind {
        change: Change::BeforeRevision,
        ..WHOLE
    },
    Kind {
        change: Change::BadLength,
        ..WHOLE
    },
    Kind {
        change: Change::NoAsdu,
        ..WHOLE
    },
];

pub const FRAMES: usize = history::ROWS * KINDS.len();

fn header(k: u32) -> EthernetHeader {
    let vlan = match below(k, 10, 2) {
        0 => Vlan::Untagged,
        _ => Vlan::Tagged(0x8100, 0x6005),
    };
    EthernetHeader {
        dst_addr: [0x01, 0x0c, 0xcd, 0x04, 0x00, 0x01],
        src_addr: [0, 0, 0, 0, 0, 2],
        vlan,
        ether_type: 0x88ba,
        appid: 0x4000,
        length: 0,
    }
}

// Whether a field is there; it never is in a plain frame.
fn presence(k: u32, place: u32, plain: bool) -> Presence {
    Presence::from(!plain && below(k, place, 2) == 1)
}

fn optional(k: u32, place: u32, plain: bool) -> Option<u16> {
    (!plain && below(k, place, 2) == 1).then_some(0x1234)
}

// An ASDU of stream k. A plain one has no optional field after the confRev, so that what follows is of
// known length.
fn asdu(k: u32, conf_rev: u32, plain: bool) -> SavAsdu {
    SavAsdu {
        msv_id: [b'A'; SavAsdu::MAX_TEXT],
        dat_set: presence(k, 20, false),
        dat_set_octets: [b'D'; SavAsdu::MAX_TEXT],
        refr_tm: presence(k, 21, plain),
        msv_id_len: below(k, 22, 12) as usize,
        dat_set_len: below(k, 23, 12) as usize,
        refr_tm_octets: [1, 2, 3, 4, 5, 6, 7, 8],
        gm_identity_octets: [8, 7, 6, 5, 4, 3, 2, 1],
        smp_rate: optional(k, 24, plain),
        smp_mod: optional(k, 25, plain),
        conf_rev,
        smp_cnt: (draw(k, 27) % 65536) as u16,
        smp_synch: (draw(k, 28) % 128) as u8,
        gm_identity: presence(k, 29, plain),
    }
}

// The row whose confRev the ASDU with the other one has: the next row or the row before.
fn other_row(k: u32, row: usize) -> usize {
    if row == 0 {
        return 1;
    }
    if below(k, 26, 2) == 0 {
        return row % 64 + 1;
    }
    row - 1
}

fn pdu(k: u32, row: usize, kind: Kind) -> SavPdu {
    let plain = kind.change == Change::AfterRevision || kind.change == Change::InRevision;
    let first = asdu(k, history::revision_of(row), plain);
    let mut sav_asdu = [first; SavPdu::MAX_ASDUS];
    if let Some(i) = kind.other {
        sav_asdu[i % SavPdu::MAX_ASDUS] = asdu(k, history::revision_of(other_row(k, row)), plain);
    }
    SavPdu {
        sav_asdu,
        security_octets: [0x5e; SavPdu::MAX_SECURITY],
        security_len: below(k, 30, 9) as usize,
        no_asdu: kind.asdus,
        sim: below(k, 31, 2) == 1,
        security: presence(k, 32, false),
    }
}

// The whole frame in the shortest form, or the writer's refusal.
fn whole(k: u32, row: usize, kind: Kind) -> Result<Frame, Refusal> {
    let counts: [i32; SavDataSetConfig::MAX_SAMPLES] = array::from_fn(|i| signed(draw(
        k,
        100 + i as u32,
    )));
    let words: [u32; SavDataSetConfig::MAX_SAMPLES] = array::from_fn(|i| draw(k, 400 + i as u32)
        % SavAsdu::QUALITY_LIMIT);
    let mut octets = [77; layout::MAX_OCTETS];
    let size = encode_smv::encode_smv(
        header(k),
        pdu(k, row, kind),
        history::channels_of(row),
        false,
        &counts,
        &words,
        &mut octets,
    )?;
    Ok(Frame { octets, size })
}

// How many octets of a frame of n are kept. What follows the confRev in a plain frame of one ASDU:
// smpSynch of one octet, 87, its length, the samples. A change is a field of the table of kinds.
fn kept(k: u32, row: usize, change: Change, n: usize) -> usize {
    let channels = history::channels_of(row);
    let after_revision = 5 + channels / 16 + channels * 8;
    match change {
        Change::Nothing | Change::BadLength | Change::NoAsdu => n,
        Change::LastOctet => n.saturating_sub(1),
        Change::AfterRevision => n.saturating_sub(after_revision),
        Change::InRevision => n.saturating_sub(after_revision + 1),
        Change::BeforeRevision => below(k, 33, 39) as usize,
    }
}

// Frame f, which is of a row: changed as its kind is, with 77 after its end; or the writer's refusal.
pub fn write(f: usize, row: usize, kind: Kind) -> Result<Frame, Refusal> {
    let k = (1000 + f % 1000) as u32;
    let mut frame = whole(k, row, kind)?;
    let length = 23 + below(k, 10, 2) as usize * 4;
    if kind.change == Change::BadLength {
        frame.octets[length] = 0x80;
    }
    if kind.change == Change::NoAsdu {
        let more = frame.octets[length].saturating_sub(128);
        frame.octets[length + 3 + more as usize] = 0;
    }
    let size = kept(k, row, kind.change, frame.size).min(layout::MAX_OCTETS);
    frame.octets[size..].fill(77);
    frame.size = size;
    Ok(frame)
}
