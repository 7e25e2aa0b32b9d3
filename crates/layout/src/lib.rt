// The places of a description in two arrays, one of numbers and one of octets: what stands before
// the ASDUs, then the same for each ASDU, one after the other. They follow from the limits of the
// records.
#![tactic(auto)]

use rt_services::{SavAsdu, SavPdu};

// The numbers before the ASDUs. A mark is 1 where the field is there, else 0.
pub const TAGGED: usize = 0;

pub const TPID: usize = 1;

pub const TCI: usize = 2;

pub const ETHER_TYPE: usize = 3;

pub const APPID: usize = 4;
// Length as read; no writer looks at it.
pub const LENGTH: usize = 5;

pub const SIMULATION: usize = 6;

pub const SECURITY: usize = 7;

pub const SECURITY_LENGTH: usize = 8;

pub const NO_ASDU: usize = 9;

pub const HEAD_NUMBERS: usize = 10;

// The numbers, and the octets, of the header alone.
pub const HEADER_NUMBERS: usize = 6;

pub const HEADER_OCTETS: usize = SECURITY_OCTETS;

// The numbers of an ASDU, from its first.
pub const SV_ID_LENGTH: usize = 0;

pub const DAT_SET: usize = 1;

pub const DAT_SET_LENGTH: usize = 2;

pub const SMP_CNT: usize = 3;

pub const CONF_REV: usize = 4;

pub const REFR_TM: usize = 5;

pub const SMP_SYNCH: usize = 6;

pub const SMP_RATE: usize = 7;

pub const SMP_RATE_VALUE: usize = 8;

pub const SMP_MOD: usize = 9;

pub const SMP_MOD_VALUE: usize = 10;

pub const GM_IDENTITY: usize = 11;

pub const ASDU_NUMBERS: usize = 12;

// The octets before the ASDUs.
pub const DST_ADDR: usize = 0;

pub const SRC_ADDR: usize = 6;

pub const SECURITY_OCTETS: usize = SRC_ADDR + 6;

pub const HEAD_OCTETS: usize = SECURITY_OCTETS + SavPdu::MAX_SECURITY;

// The octets of an ASDU, from its first.
pub const SV_ID_OCTETS: usize = 0;

pub const DAT_SET_OCTETS: usize = SV_ID_OCTETS + SavAsdu::MAX_TEXT;

pub const REFR_TM_OCTETS: usize = DAT_SET_OCTETS + SavAsdu::MAX_TEXT;

pub const GM_IDENTITY_OCTETS: usize = REFR_TM_OCTETS + 8;

pub const ASDU_OCTETS: usize = GM_IDENTITY_OCTETS + 8;

// The numbers, and the octets, of the most ASDUs.
pub const MAX_NUMBERS: usize = HEAD_NUMBERS + SavPdu::MAX_ASDUS * ASDU_NUMBERS;

pub const MAX_OCTETS: usize = HEAD_OCTETS + SavPdu::MAX_ASDUS * ASDU_OCTETS;
