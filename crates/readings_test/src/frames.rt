// Frames of generated descriptions.
// sets_test makes the header and most fields alike: a crate for these lines, with contracts and
// edits of its own, would be longer than they are.
use crate::Frame;
use crate::draw::{below, draw};
use decode_smv::samples::signed;
use rt_services::{EthernetHeader, Presence, Refusal, SavAsdu, SavDataSetConfig, SavPdu, Vlan};

fn header(k: u32) -> EthernetHeader {
    let vlan = match below(k, 10, 2) {
        0 => Vlan::Untagged,
        _ => Vlan::Tagged(0x8100, 0x6005),
    };
    EthernetHeader {
        dst_addr: [0x01, 0x0c, 0xcd, 0x04, 0x00, 0x01],
        src_addr: [0, 0, 0, 0, 0, 2],
        vlan,
        ether_type: 0x88ba,
        appid: 0x4000,
        length: 0,
    }
}

fn presence(k: u32, place: u32) -> Presence {
    Presence::from(below(k, place, 2) == 1)
}

fn optional(k: u32, place: u32) -> Option<u16> {
    (below(k, place, 2) == 1).then_some(0x1234)
}

// Every ASDU of a frame is the same but for its samples.
fn asdu(k: u32) -> SavAsdu {
    SavAsdu {
        msv_id: [b'A'; SavAsdu::MAX_TEXT],
        dat_set: presence(k, 20),
        dat_set_octets: [b'D'; SavAsdu::MAX_TEXT],
        refr_tm: presence(k, 21),
        msv_id_len: below(k, 22, 12) as usize,
        dat_set_len: below(k, 23, 12) as usize,
        refr_tm_octets: [1, 2, 3, 4, 5, 6, 7, 8],
        gm_identity_octets: [8, 7, 6, 5, 4, 3, 2, 1],
        smp_rate: optional(k, 24),
        smp_mod: optional(k, 25),
        conf_rev: draw(k, 26),
        smp_cnt: (draw(k, 27) % 65536) as u16,
        smp_synch: (draw(k, 28) % 256) as u8,
        gm_identity: presence(k, 29),
    }
}

// So many ASDUs of so many channels that the writer can write them: 1 to 8.
fn pdu(k: u32, channels: u32) -> SavPdu {
    let most = 1200 / (channels % 25 * 8 + 100);
    SavPdu {
        sav_asdu: [asdu(k); SavPdu::MAX_ASDUS],
        security_octets: [0x5e; SavPdu::MAX_SECURITY],
        security_len: below(k, 30, 9) as usize,
        no_asdu: 1 + below(k, 3, most % 8 + 1) as u16,
        sim: below(k, 31, 2) == 1,
        security: presence(k, 32),
    }
}

// The number that an element's count and quality word are drawn of: from one stream where the mask
// shows its channel, else from another.
fn sample(mask: u32, channels: u32, element: u32, shown: u32, hidden: u32) -> u32 {
    let is_shown = match element.checked_rem(channels) {
        Some(channel) => channel < 24 && (mask >> channel) % 2 == 1,
        None => true,
    };
    if is_shown {
        return draw(shown, element);
    }
    draw(hidden, element)
}

// The frame of description k, with shown samples of k and hidden ones of another stream; or the
// writer's refusal.
pub fn write(k: u32, channels: u32, mask: u32, hidden: u32) -> Result<Frame, Refusal> {
    // One loop over both arrays: an array of the drawn numbers, mapped twice, costs two thirds of a frame more.
    let mut counts = [0; SavDataSetConfig::MAX_SAMPLES];
    let mut words = [0; SavDataSetConfig::MAX_SAMPLES];
    for (i, (count, word)) in counts.iter_mut().zip(words.iter_mut()).enumerate() {
        let x = sample(mask, channels, i as u32, k, hidden);
        *count = signed(x);
        *word = x % SavAsdu::QUALITY_LIMIT;
    }
    let mut octets = [0; SavPdu::MAX_FRAME];
    let size = encode_smv::encode_smv(
        header(k),
        pdu(k, channels),
        channels as usize,
        below(k, 33, 2) == 1,
        &counts,
        &words,
        &mut octets,
    )?;
    Ok(Frame { octets, size })
}

// How many of a frame's n octets are read: all, or some.
pub fn kept(k: u32, n: usize) -> usize {
    if below(k, 4, 2) == 0 {
        return n;
    }
    n.min(below(k, 5, 1600) as usize)
}
