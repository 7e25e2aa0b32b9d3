// Demand 3 of the records, as contracts: each function makes two calls, and promises of their
// answers what the theorem of its name in specs/Theorems.antt says, for every record and every array.
// Nothing is asked of its caller.
// `fixed` is the form of the counters: fixed, or else shortest.
// Counts and quality words are two arrays that the caller lends, as a rule of the project.
#![tactic(auto)]

pub mod widths;

ghost use Rattle.std.specs.Prelude.{◌≡◌, ◌*◌, ◌≤◌, length, Ok, IfOk, IsOkAnd};
ghost use Rattle.std.specs.Result.{result_map_both};
ghost use Rattle.definition.specs.Answers.{over};
ghost use Rattle.record_agreement.specs.Calls.{Encodes, ReadsStrictly};
ghost use Rattle.record_agreement.specs.Theorems.{Returned};

use rt_services::{EthernetHeader, Refusal, SavPdu, SavRead};

// How many octets were written, and what strict reading of them answered.
#[derive(Clone, Copy)]
pub struct WrittenRead {
    pub size: usize,
    pub read: Result<SavRead, Refusal>,
}

// Written, and where that is accepted strictly read.
pub fn write_then_read(
    header: EthernetHeader,
    pdu: SavPdu,
    channels: usize,
    fixed: bool,
    counts: &[i32],
    qualities: &[u32],
    frame: &mut [u8],
    counts_back: &mut [i32],
    qualities_back: &mut [u32],
) -> Result<WrittenRead, Refusal>
    ensures write { Encodes fixed channels header pdu counts.now qualities.now frame.old frame.new (result_map_both (λ x. x.size) (λ r. r) result) }
    ensures read { IfOk result (λ x. pdu.no_asdu * channels ≤ length counts_back.old → pdu.no_asdu * channels ≤ length qualities_back.old
        → IsOkAnd x.read (Returned fixed channels header pdu counts.now qualities.now counts_back.old counts_back.new qualities_back.old qualities_back.new)) }
{
    widths::counts(counts);
    let size = encode_smv::encode_smv(header, pdu, channels, fixed, counts, qualities, frame)?;
    let read = strict_smv::read_strict(
        &frame[..size],
        channels,
        fixed,
        counts_back,
        qualities_back,
    );
    Ok(WrittenRead { size, read })
}

// What was read, and what writing it answered.
#[derive(Clone, Copy)]
pub struct ReadWritten {
    pub read: SavRead,
    pub written: Result<usize, Refusal>,
}

// Strictly read, and where that is accepted written from what was handed back.
pub fn read_then_write(
    s: &[u8],
    channels: usize,
    fixed: bool,
    counts: &mut [i32],
    qualities: &mut [u32],
    frame: &mut [u8],
) -> Result<ReadWritten, Refusal>
    ensures read { ReadsStrictly fixed channels s.now counts.old counts.new qualities.old qualities.new (result_map_both (λ x. x.read) (λ r. r) result) }
    ensures write { IfOk result (λ x. length s.now ≤ length frame.old
        → (x.written ≡ Ok (length s.now)) × (frame.new ≡ over frame.old 0 s.now)) }
{
    let read = strict_smv::read_strict(s, channels, fixed, counts, qualities)?;
    let written = encode_smv::encode_smv(
        read.header,
        read.pdu,
        channels,
        fixed,
        counts,
        qualities,
        frame,
    );
    Ok(ReadWritten { read, written })
}
