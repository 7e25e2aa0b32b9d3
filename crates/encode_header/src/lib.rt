// The writer of a frame's header, up to its PDU. Each `put_` writer asks room for what it puts.
#![tactic(auto)]

ghost use Rattle.std.specs.Prelude.{◌≡◌, Bool, true, ℕ, ◌+◌, ◌≤◌, length};
ghost use Rattle.definition.specs.Frame.{reserved};
ghost use Rattle.ber_encode.specs.Put.{Wrote};
ghost use Rattle.encode_check.specs.Fits.{header_fits};
ghost use Rattle.encode_header.specs.Header.{tag_octets, header_written, TagFits};

use rt_services::{EthernetHeader, Vlan};

// 81 00 and TCI, or nothing: the optional tag is the enum Vlan, as a rule of the project.
fn put_vlan(frame: &mut [u8], at: usize, vlan: Vlan) -> usize
    requires { TagFits vlan × (at + length (tag_octets vlan) ≤ length frame.old) }
    ensures { Wrote frame.old at (tag_octets vlan) frame.new result }
{
    match vlan {
        Vlan::Untagged => at,
        Vlan::Tagged(_, tci) => {
            let p = ber_encode::put_bytes(frame, at, &Vlan::TPID);
            ber_encode::put_octets(frame, p, 2, tci as u32)
        }
    }
}

// Reserved 1 with the simulation mark, and reserved 2.
#[tactic(auto, unfolding(definition::specs::Frame::reserved))]
fn put_reserved(frame: &mut [u8], at: usize, sim: bool) -> usize
    requires { at + 4 ≤ length frame.old }
    ensures { Wrote frame.old at (reserved sim) frame.new result }
{
    let mark = if sim { 0x80 } else { 0x00 };
    ber_encode::put_bytes(frame, at, &[mark, 0, 0, 0])
}

// How many octets the header is written in.
pub fn header_length(header: EthernetHeader) -> usize
    ensures octets { (sim : Bool) (len : ℕ) → result ≡ length (header_written header sim len) }
    ensures bound { result ≤ 26 }
{
    match header.vlan {
        Vlan::Untagged => 22,
        Vlan::Tagged(_, _) => 26,
    }
}

// The header with Length and the simulation mark, at the frame's start.
pub fn encode_ethernet_header(
    frame: &mut [u8],
    header: EthernetHeader,
    sim: bool,
    len: u16,
) -> usize
    requires { (header_fits header ≡ true) × (length (header_written header sim len) ≤ length frame.old) }
    ensures { Wrote frame.old 0 (header_written header sim len) frame.new result }
{
    let p1 = ber_encode::put_bytes(frame, 0, &header.dst_addr);
    let p2 = ber_encode::put_bytes(frame, p1, &header.src_addr);
    let p3 = put_vlan(frame, p2, header.vlan);
    let p4 = ber_encode::put_bytes(frame, p3, &EthernetHeader::SMV);
    let p5 = ber_encode::put_octets(frame, p4, 2, header.appid as u32);
    let p6 = ber_encode::put_octets(frame, p5, 2, len as u32);
    put_reserved(frame, p6, sim)
}
