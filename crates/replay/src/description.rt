// Descriptions, of a header and a PDU with its samples, as requests and answers have them.
ghost use Rattle.std.specs.Iterator.{at_most};

use crate::octets::{Field, Fields, Octets, Text, held};
use rt_services::{EthernetHeader, Presence, Refusal, SavAsdu, SavDataSetConfig, SavPdu, Vlan};
use std::num::f32_from_bits_with_nan;

// Elements of the arrays that are lent to the writer: above ten ASDUs of 24 channels.
pub const SAMPLES: usize = 256;

// A sample: its value and its scale factor, by the bits of an f32, and its quality word.
#[derive(Clone, Copy)]
pub struct Sample {
    value: u32,
    scale: u32,
    pub quality: u32,
}

impl Field for Sample {
    fn of(octets: &mut Octets) -> Option<Sample> {
        Some(Sample {
            value: octets.next()?,
            scale: octets.next()?,
            quality: octets.next()?,
        })
    }
}

impl Sample {
    const ZERO: Sample = Sample {
        value: 0,
        scale: 0,
        quality: 0,
    };

    pub fn value(self) -> f32 {
        f32_from_bits_with_nan(self.value)
    }

    pub fn scale(self) -> f32 {
        f32_from_bits_with_nan(self.scale)
    }

    // Its count, or the refusal of its value.
    pub fn count(self) -> Result<i32, Refusal> {
        scaling::count_of(self.value(), self.scale())
    }
}

// An ASDU record.
#[derive(Clone, Copy)]
pub struct Record<'a> {
    pub sv_id: Text<'a>,
    // Beside its mark, as a text above its limit is told without it; so is that of security.
    pub has_dat_set: bool,
    pub dat_set: Text<'a>,
    pub smp_cnt: u16,
    pub conf_rev: u32,
    pub refr_tm: Option<[u8; 8]>,
    pub smp_synch: u8,
    pub smp_rate: Option<u16>,
    pub smp_mod: Option<u16>,
    pub gm_identity: Option<[u8; 8]>,
    pub samples: Fields<'a, Sample>,
}

impl<'a> Record<'a> {
    fn of(octets: &mut Octets<'a>) -> Option<Record<'a>> {
        Some(Record {
            sv_id: octets.text()?,
            has_dat_set: octets.next()?,
            dat_set: octets.text()?,
            smp_cnt: octets.next()?,
            conf_rev: octets.next()?,
            refr_tm: octets.next()?,
            smp_synch: octets.next()?,
            smp_rate: octets.next()?,
            smp_mod: octets.next()?,
            gm_identity: octets.next()?,
            samples: {
                let n: u8 = octets.next()?;
                octets.fields(n as usize)?
            },
        })
    }
}

// ASDU records in a row, of octets with zeros after them. No proof is made for code over Fields<Record>, which names two
// lifetimes.
#[derive(Clone, Copy)]
pub struct Records<'a> {
    octets: Octets<'a>,
    left: usize,
}

impl<'a> Records<'a> {
    // How many are left.
    pub fn len(&self) -> usize {
        self.left
    }
}

impl<'a> Iterator for Records<'a> {
    type Item = Record<'a>;

    ghost remaining = { λ s. at_most s.left };

    // Of the records past the octets, which are zeros alike, only the first.
    fn next(&mut self) -> Option<Record<'a>> {
        self.left = self.left.checked_sub(1)?;
        if self.octets.is_empty() {
            self.left = 0;
        }
        Record::of(&mut self.octets)
    }
}

impl<'a> Record<'a> {
    fn asdu(self) -> SavAsdu {
        SavAsdu {
            msv_id: held(self.sv_id.octets),
            dat_set: Presence::from(self.has_dat_set),
            dat_set_octets: held(self.dat_set.octets),
            refr_tm: Presence::from(self.refr_tm.is_some()),
            msv_id_len: self.sv_id.len,
            dat_set_len: self.dat_set.len,
            refr_tm_octets: self.refr_tm.unwrap_or_default(),
            gm_identity_octets: self.gm_identity.unwrap_or_default(),
            smp_rate: self.smp_rate,
            smp_mod: self.smp_mod,
            conf_rev: self.conf_rev,
            smp_cnt: self.smp_cnt,
            smp_synch: self.smp_synch,
            gm_identity: Presence::from(self.gm_identity.is_some()),
        }
    }

    // Whether a text is above its limit.
    fn has_long_text(self) -> bool {
        SavAsdu::MAX_TEXT < self.sv_id.len || SavAsdu::MAX_TEXT < self.dat_set.len
    }
}

#[derive(Clone, Copy)]
pub struct Pdu<'a> {
    pub simulated: bool,
    pub no_asdu: u16,
    pub has_security: bool,
    pub security: Text<'a>,
    pub records: Records<'a>,
}

impl<'a> Pdu<'a> {
    // Of octets with zeros after them, so that no record is missing.
    pub fn of(octets: &mut Octets<'a>) -> Option<Pdu<'a>> {
        Some(Pdu {
            simulated: octets.next()?,
            no_asdu: octets.next()?,
            has_security: octets.next()?,
            security: octets.text()?,
            records: {
                let n: u16 = octets.next()?;
                Records {
                    octets: *octets,
                    left: n as usize,
                }
            },
        })
    }

    // As the writer takes it: the first eight ASDUs, and blank records after them.
    pub fn pdu(self) -> SavPdu {
        let mut sav_asdu = [SavAsdu::BLANK; SavPdu::MAX_ASDUS];
        for (asdu, record) in sav_asdu.iter_mut().zip(self.records) {
            *asdu = record.asdu();
        }
        SavPdu {
            sav_asdu,
            security_octets: held(self.security.octets),
            security_len: self.security.len,
            no_asdu: self.no_asdu,
            sim: self.simulated,
            security: Presence::from(self.has_security),
        }
    }

    // The samples of the first ASDU.
    fn first_samples(self) -> Fields<'a, Sample> {
        let mut records = self.records;
        records
            .next()
            .map_or(Fields::none(), |record| record.samples)
    }

    // The number of channels: the samples of the first ASDU.
    pub fn channels(self) -> usize {
        self.first_samples().len()
    }

    // The data set of the first ASDU.
    pub fn data_set(self) -> SavDataSetConfig {
        let mut scale_factor = [0.0; SavDataSetConfig::MAX_CHANNELS];
        for (scale, sample) in scale_factor.iter_mut().zip(self.first_samples()) {
            *scale = sample.scale();
        }
        SavDataSetConfig {
            channels: self.channels(),
            scale_factor,
        }
    }

    // What `of` says of each sample, ASDU by ASDU, and of a sample of zeros past the last.
    pub fn each_sample<T: Copy, F: Fn(Sample) -> T>(self, of: F) -> [T; SAMPLES]
        requires { F.IsAlwaysCallable of }
    {
        let mut elements = [of(Sample::ZERO); SAMPLES];
        let samples = self.records.flat_map(|record| record.samples);
        for (element, sample) in elements.iter_mut().zip(samples) {
            *element = of(sample);
        }
        elements
    }

    // Whether a test holds of a sample.
    pub fn any_sample<F: Fn(Sample) -> bool>(self, test: F) -> bool
        requires { F.IsAlwaysCallable test }
    {
        let mut samples = self.records.flat_map(|record| record.samples);
        samples.any(test)
    }

    // Whether every ASDU has as many samples as the first.
    pub fn is_even(self) -> bool {
        let channels = self.channels();
        let mut records = self.records;
        records.all(|record| record.samples.len() == channels)
    }

    // Whether an ASDU has other scale factors than the first.
    pub fn has_other_scales(self) -> bool {
        let first = self.first_samples();
        let mut records = self.records;
        records.any(|record| {
            let mut pairs = record.samples.zip(first);
            pairs.any(|(sample, first)| sample.scale != first.scale)
        })
    }

    // Whether the number of ASDUs, security or a text is above its limit.
    pub fn is_above_limit(self) -> bool {
        let mut records = self.records;
        SavPdu::MAX_ASDUS < records.len()
            || SavPdu::MAX_SECURITY < self.security.len
            || records.any(|record| record.has_long_text())
    }
}

#[derive(Clone, Copy)]
pub struct Description<'a> {
    pub header: EthernetHeader,
    // Whether only half of the VLAN tag is there: TPID without TCI, or TCI without TPID.
    pub half_tag: bool,
    pub pdu: Pdu<'a>,
}

impl<'a> Description<'a> {
    pub fn of(mut octets: Octets<'a>) -> Option<Description<'a>> {
        let dst_addr = octets.next()?;
        let src_addr = octets.next()?;
        let mark: u8 = octets.next()?;
        let (tpid, tci) = octets.next()?;
        let vlan = if mark == 1 {
            Vlan::Tagged(tpid, tci)
        } else {
            Vlan::Untagged
        };
        let header = EthernetHeader {
            dst_addr,
            src_addr,
            vlan,
            ether_type: octets.next()?,
            appid: octets.next()?,
            length: octets.next()?,
        };
        Some(Description {
            header,
            half_tag: 1 < mark,
            pdu: Pdu::of(&mut octets)?,
        })
    }
}
