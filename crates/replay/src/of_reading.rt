// The kinds f, p, h and i: the frame reader, decode_smv, the header, and the frame test.
use crate::answer::{Theirs, answered};
use crate::class::Class;
use crate::octets::{Fields, Octets};
use crate::reading_class::{Answers, of_header};
use rt_services::{
    EthernetHeader, Presence, Reason, Refusal, SavAsdu, SavDataSetConfig, SavPdu, SavRead, Vlan,
};
use std::num::f32_to_bits_with_nan;

// The samples of a PDU: the scale factors of its channels, by their bits, and counts and quality words, ASDU by ASDU.
// Counts and quality words are two arrays, here and below, as every reader and writer is lent them.
#[derive(Clone, Copy)]
struct Samples<'a> {
    scales: Fields<'a, u32>,
    counts: &'a [i32],
    qualities: &'a [u32],
}

fn has_vlan(theirs: &mut Octets, vlan: Vlan) -> Option<()> {
    theirs.has(match vlan {
        Vlan::Untagged => None,
        Vlan::Tagged(tpid, tci) => Some((tpid, tci)),
    })
}

fn has_header(theirs: &mut Octets, h: EthernetHeader) -> Option<()> {
    theirs.has(h.dst_addr)?;
    theirs.has(h.src_addr)?;
    has_vlan(theirs, h.vlan)?;
    theirs.has(h.ether_type)?;
    theirs.has(h.appid)?;
    theirs.has(h.length)
}

// Whether a text is the lossy UTF-8 reading of octets, as the Rust's String::from_utf8_lossy has it.
fn is_lossy(text: &[u8], s: &[u8]) -> Option<()> {
    let mut text = Octets::new(text);
    for chunk in s.utf8_chunks() {
        text.has_octets(chunk.valid().as_bytes())?;
        if !chunk.invalid().is_empty() {
            text.has_octets("\u{fffd}".as_bytes())?;
        }
    }
    text.end()
}

fn is_utf8(s: &[u8]) -> bool {
    std::str::from_utf8(s).is_ok()
}

fn sv_id(asdu: &SavAsdu) -> &[u8] {
    asdu.msv_id.get(..asdu.msv_id_len).unwrap_or_default()
}

fn dat_set(asdu: &SavAsdu) -> &[u8] {
    asdu.dat_set_octets
        .get(..asdu.dat_set_len)
        .unwrap_or_default()
}

fn has_asdu(theirs: &mut Octets, asdu: &SavAsdu) -> Option<()> {
    is_lossy(theirs.text()?.octets, sv_id(asdu))?;
    theirs.has(asdu.dat_set == Presence::Present)?;
    is_lossy(theirs.text()?.octets, dat_set(asdu))?;
    theirs.has(asdu.smp_cnt)?;
    theirs.has(asdu.conf_rev)?;
    theirs.has(asdu.refr_tm == Presence::Present)?;
    theirs.has(asdu.refr_tm_octets)?;
    theirs.has(asdu.smp_synch)?;
    theirs.has(asdu.smp_rate)?;
    theirs.has(asdu.smp_mod)?;
    theirs.has(asdu.gm_identity == Presence::Present)?;
    theirs.has(asdu.gm_identity_octets)
}

// A sample: the value of its count, its scale factor as the request has it, and its quality word.
fn has_sample(theirs: &mut Octets, count: i32, scale: u32, quality: u32) -> Option<()> {
    let factor = std::num::f32_from_bits_with_nan(scale);
    theirs.has(f32_to_bits_with_nan(scaling::value_of(count, factor)))?;
    theirs.has(scale)?;
    theirs.has(quality)
}

fn has_asdus(theirs: &mut Octets, pdu: &SavPdu, samples: Samples) -> Option<()> {
    let channels = u8::try_from(samples.scales.len()).ok()?;
    let mut elements = samples.counts.iter().zip(samples.qualities);
    for asdu in pdu.sav_asdu.iter().take(pdu.no_asdu as usize) {
        has_asdu(theirs, asdu)?;
        theirs.has(channels)?;
        for scale in samples.scales {
            let (count, quality) = elements.next()?;
            has_sample(theirs, *count, scale, *quality)?;
        }
    }
    Some(())
}

fn has_pdu(theirs: &mut Octets, pdu: &SavPdu, samples: Samples) -> Option<()> {
    theirs.has(pdu.sim)?;
    theirs.has(pdu.no_asdu)?;
    theirs.has(pdu.security == Presence::Present)?;
    if theirs.text()?.octets != pdu.security_octets.get(..pdu.security_len)? {
        return None;
    }
    // The number of ASDU records.
    theirs.has(pdu.no_asdu)?;
    has_asdus(theirs, pdu, samples)
}

// Whether the Rust answers this PDU, after a header where one was read.
fn answers(
    theirs: Theirs,
    header: Option<EthernetHeader>,
    pdu: &SavPdu,
    samples: Samples,
) -> Option<()> {
    let mut theirs = theirs.answer()?;
    if let Some(header) = header {
        has_header(&mut theirs, header)?;
    }
    has_pdu(&mut theirs, pdu, samples)?;
    theirs.end()
}

// Whether all texts are UTF-8; a record past noASDU has none.
fn all_utf8(pdu: &SavPdu) -> bool {
    pdu.sav_asdu
        .iter()
        .all(|asdu| is_utf8(sv_id(asdu)) && is_utf8(dat_set(asdu)))
}

// Those that are alike are told apart by whether their texts are UTF-8.
// The class so far is a value that this and `by_strict` refine, and names no step to run.
fn by_text(found: Class, pdu: Option<&SavPdu>) -> Class {
    match pdu {
        Some(pdu) if found == Class::Answered && !all_utf8(pdu) => Class::Lossy,
        _ => found,
    }
}

// A frame, with the number of its channels, and what ordinary reading of it answers.
#[derive(Clone, Copy)]
struct Reading<'a> {
    s: &'a [u8],
    channels: usize,
    read: Result<SavRead, Refusal>,
    samples: Samples<'a>,
}

impl<'a> Reading<'a> {
    // Whether the writer writes these octets again, in this form, of what was read.
    fn is_written_again(&self, fixed: bool, read: &SavRead) -> bool {
        let mut buffer = [0; SavPdu::MAX_FRAME];
        let written = encode_smv::encode_smv(
            read.header,
            read.pdu,
            self.channels,
            fixed,
            self.samples.counts,
            self.samples.qualities,
            &mut buffer,
        );
        match written {
            Ok(size) => buffer.get(..size).is_some_and(|frame| frame == self.s),
            Err(_) => false,
        }
    }

    // What strict reading in a form answers.
    fn strict(&self, fixed: bool) -> Result<SavRead, Refusal> {
        let mut counts = [0; SavDataSetConfig::MAX_SAMPLES];
        let mut qualities = [0; SavDataSetConfig::MAX_SAMPLES];
        strict_smv::read_strict(self.s, self.channels, fixed, &mut counts, &mut qualities)
    }

    // Whether strict reading in a form accepts: it has to refuse what ordinary reading refuses, and to accept exactly what the
    // writer writes again of what was read; None where it does otherwise.
    fn is_accepted(&self, fixed: bool) -> Option<bool> {
        match (self.strict(fixed), &self.read) {
            (Err(strict), Err(refusal)) => (strict == *refusal).then_some(false),
            (Err(strict), Ok(read)) => (strict.reason == Reason::NotAsWritten
                && !self.is_written_again(fixed, read)).then_some(false),
            (Ok(_), Ok(read)) => self.is_written_again(fixed, read).then_some(true),
            (Ok(_), Err(_)) => None,
        }
    }

    // The class, with strict reading in both forms.
    fn by_strict(&self, found: Class) -> Option<Class> {
        let shortest = self.is_accepted(false)?;
        let fixed = self.is_accepted(true)?;
        Some(match (found, shortest, fixed) {
            (Class::Answered, true, false) => Class::Shortest,
            (Class::Answered, false, true) => Class::Fixed,
            (Class::Answered, true, true) => Class::Both,
            (Class::Lossy, true, false) => Class::ShortestLossy,
            (Class::Lossy, false, true) => Class::FixedLossy,
            (Class::Lossy, true, true) => Class::BothLossy,
            _ => found,
        })
    }
}

pub fn frame<'a>(mut request: Octets<'a>, theirs: Theirs<'a>) -> Option<Class> {
    let channels: u8 = request.next()?;
    let channels = channels as usize;
    let scales = request.fields(channels)?;
    let s = request.rest;
    let mut counts = [0; SavDataSetConfig::MAX_SAMPLES];
    let mut qualities = [0; SavDataSetConfig::MAX_SAMPLES];
    let read = decode_smv::read_frame(s, channels, &mut counts, &mut qualities);
    let samples = Samples {
        scales,
        counts: &counts,
        qualities: &qualities,
    };
    let ours = read.map(|read| answers(theirs, Some(read.header), &read.pdu, samples).is_some());
    let both = Answers {
        s,
        channels,
        ours,
        theirs,
    };
    let found = both.class_of_frame()?;
    let pdu = read.as_ref().ok().map(|read| &read.pdu);
    let reading = Reading {
        s,
        channels,
        read,
        samples,
    };
    reading.by_strict(by_text(found, pdu))
}

// Beside `frame`: one function of both would be told which reader to call, and what stands in the request.
pub fn pdu<'a>(mut request: Octets<'a>, theirs: Theirs<'a>) -> Option<Class> {
    let start = request.next()?;
    let channels: u8 = request.next()?;
    let channels = channels as usize;
    let scales = request.fields(channels)?;
    let s = request.rest;
    let mut counts = [0; SavDataSetConfig::MAX_SAMPLES];
    let mut qualities = [0; SavDataSetConfig::MAX_SAMPLES];
    let read = decode_smv::decode_smv(s, start, channels, &mut counts, &mut qualities);
    let samples = Samples {
        scales,
        counts: &counts,
        qualities: &qualities,
    };
    let ours = read.map(|pdu| answers(theirs, None, &pdu, samples).is_some());
    let both = Answers {
        s,
        channels,
        ours,
        theirs,
    };
    let found = both.class_of_pdu(start)?;
    Some(by_text(found, read.as_ref().ok()))
}

pub fn header(request: Octets, theirs: Theirs) -> Option<Class> {
    match ethernet_header::decode_ethernet_header(request.rest) {
        Err(refusal) => of_header(request.rest, refusal, theirs),
        Ok((header, next)) => {
            let mut theirs = theirs.answer()?;
            has_header(&mut theirs, header)?;
            theirs.has(next.at)?;
            answered(theirs)
        }
    }
}

pub fn frame_test(request: Octets, theirs: Theirs) -> Option<Class> {
    let mut theirs = theirs.answer()?;
    theirs.has(ethernet_header::is_smv_frame(request.rest))?;
    answered(theirs)
}
