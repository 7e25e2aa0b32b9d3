// The Ethernet header of a frame, and the marks that are found by it.
#![tactic(auto)]

ghost use Rattle.std.specs.Prelude.{◌≡◌, ◌+◌, ◌≤◌, length, get_or, take, drop, cond};
ghost use Rattle.definition.specs.Read.{be_at, tagged, header_at, is_smv_frame, simulation_of};
ghost use Rattle.rt_services.specs.Describe.{header_record};
ghost use Rattle.ber_decode.specs.Told.{told_at, found};
ghost use Rattle.ethernet_header.specs.Header.{pair_at};
ghost use Rattle.ethernet_header.specs.Told.{opened_at};

use ber_decode::Cursor;
use rt_services::{EthernetHeader, Reason, Refusal, SavDataSetConfig, Vlan};

pub type Address = [u8; 6];

// Whether the octets at a place are these two: `s.get(at..at + 2) == Some(..)` is no plainer, with the
// conversion of the pair to a slice.
fn pair_at(s: &[u8], at: usize, pair: &[u8; 2]) -> bool
    requires { at ≤ 16 }
    ensures { result ≡ pair_at s.now at (get_or pair.now 0 0) (get_or pair.now 1 0) }
{
    at + 2 <= s.len() && s[at] == pair[0] && s[at + 1] == pair[1]
}

fn is_tagged(s: &[u8]) -> bool
    ensures { result ≡ tagged s.now }
{
    pair_at(s, 12, &Vlan::TPID)
}

// The place of the EtherType.
fn type_place(s: &[u8]) -> usize
    ensures { result ≡ cond (tagged s.now) 16 12 }
{
    if is_tagged(s) { 16 } else { 12 }
}

// Whether the EtherType is there, and is that of sampled values.
pub fn is_smv_frame(s: &[u8]) -> bool
    ensures { result ≡ is_smv_frame s.now }
{
    pair_at(s, type_place(s), &EthernetHeader::SMV)
}

// The simulation mark, the first bit of reserved 1; off when the octets end before it.
pub fn simulation(s: &[u8]) -> bool
    ensures { result ≡ simulation_of s.now }
{
    let place = type_place(s);
    let at = place + 6;
    at < s.len() && 0x80 <= s[at]
}

// The number of the two octets at a place.
fn number16(s: &[u8], at: usize) -> u16
    requires { at + 2 ≤ length s.now }
    ensures { result ≡ be_at s.now at 2 }
{
    u16::from_be_bytes([s[at], s[at + 1]])
}

// The address at a place.
pub fn address(s: &[u8], at: usize) -> Address
    requires { at + 6 ≤ length s.now }
    ensures { result ≡ take 6 (drop at s.now) }
{
    let mut address = [0; 6];
    address.copy_from_slice(&s[at..at + 6]);
    address
}

// The header, and the place after it: 22, or 26 with a VLAN tag.
pub fn decode_ethernet_header(s: &[u8]) -> Result<(EthernetHeader, Cursor), Refusal>
    ensures { told_at result ≡ found header_record (header_at s.now) }
{
    let at = type_place(s);
    if s.len() < at + 6 {
        return Err(Reason::EndsTooSoon.at(s.len()));
    }
    let vlan = if at == 16 {
        Vlan::Tagged(number16(s, 12), number16(s, 14))
    } else {
        Vlan::Untagged
    };
    let header = EthernetHeader {
        dst_addr: address(s, 0),
        src_addr: address(s, 6),
        vlan,
        ether_type: number16(s, at),
        appid: number16(s, at + 2),
        length: number16(s, at + 4),
    };
    Ok((header, Cursor { at: at + 10 }))
}

// What every reader of a frame begins with: no more channels than a data set has, then the header.
pub fn open_frame(s: &[u8], channels: usize) -> Result<(EthernetHeader, Cursor), Refusal>
    ensures { told_at result ≡ found header_record (opened_at channels s.now) }
{
    if SavDataSetConfig::MAX_CHANNELS < channels {
        return Err(Reason::TooManyChannels.at(0));
    }
    decode_ethernet_header(s)
}
