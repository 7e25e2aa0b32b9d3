// Scaled and back without loss, as contracts: each function makes the calls of its name one after
// the other, and promises of their answers what the theorem of its name in specs/Records.antt or
// specs/Flat.antt says. Nothing is asked of its caller.
// `fixed` is the form of the counters: fixed, or else shortest.
// Counts and quality words are two arrays that the caller lends, as a rule of the project.
#![tactic(auto)]

pub mod flat;

ghost use Rattle.std.specs.Prelude.{◌≡◌, ℕ, ◌*◌, ◌≤◌, length, take, Ok, Some, IfOk, IsOkAnd};
ghost use Rattle.std.specs.Result.{result_map_both};
ghost use Rattle.definition.specs.Limits.{max_samples};
ghost use Rattle.definition.specs.Frame.{Description};
ghost use Rattle.definition.specs.Answers.{accepted, over, strict_read};
ghost use Rattle.definition.specs.Scaling.{value_of, count_of};
ghost use Rattle.rt_services.specs.Reasons.{told};
ghost use Rattle.scaling.specs.Told.{held_counts};
ghost use Rattle.record_agreement.specs.Calls.{Encodes, ReadsOrdinarily};
ghost use Rattle.lossless.specs.Bounds.{greatest, CountWithin, ScaleWithin, AllWithin};
ghost use Rattle.values_agreement.specs.Calls.{Scales, EncodesValues};

use rt_services::{Refusal, SavDataSetConfig, SavRead};

// The value of a count, and the count of that value.
pub fn value_then_count(count: i32, scale: f32) -> Result<i32, Refusal>
    ensures told { told result ≡ count_of (value_of count scale) scale }
    ensures back { CountWithin greatest count → ScaleWithin scale → result ≡ Ok count }
{
    scaling::count_of(scaling::value_of(count, scale), scale)
}

// How many values there are of the counts of a reading, and what the call for the counts of these
// values answered; it is not made where there are more than a description has.
#[derive(Clone, Copy)]
pub struct ScaledBack {
    pub valued: usize,
    pub back: Option<Result<[i32; SavDataSetConfig::MAX_SAMPLES], Refusal>>,
}

// The values of the counts of no_asdu ASDUs, and the counts of these values.
pub fn values_then_counts(
    config: SavDataSetConfig,
    no_asdu: u16,
    counts: &[i32],
    values: &mut [f32],
) -> Result<ScaledBack, Refusal>
    ensures values { Scales config no_asdu counts.now values.old values.new (result_map_both (λ x. x.valued) (λ r. r) result) }
    ensures back { IfOk result (λ x. x.valued ≤ max_samples → AllWithin config.channels config.scale_factor counts.now (no_asdu * config.channels)
        → x.back ≡ Some (Ok (held_counts (take (no_asdu * config.channels) counts.now)))) }
{
    let valued = scaling::values_of(config, no_asdu, counts, values)?;
    if SavDataSetConfig::MAX_SAMPLES < valued {
        return Ok(ScaledBack { valued, back: None });
    }
    let back = Some(scaling::counts_of(config, &values[..valued]));
    Ok(ScaledBack { valued, back })
}

// What was read of a frame, and what the two calls for it answered.
#[derive(Clone, Copy)]
pub struct Answers {
    pub read: SavRead,
    pub valued: Result<usize, Refusal>,
    pub written: Result<usize, Refusal>,
}

// Read the ordinary way, and where that is accepted the values of its counts, and the frame of what
// was read with these values: what `encode_smv` answers and writes of the counts that were read, so
// the frame itself where strict reading accepts it.
pub fn read_then_write_values(
    s: &[u8],
    config: SavDataSetConfig,
    fixed: bool,
    counts: &mut [i32],
    qualities: &mut [u32],
    values: &mut [f32],
    frame: &mut [u8],
) -> Result<Answers, Refusal>
    ensures read { ReadsOrdinarily config.channels s.now counts.old counts.new qualities.old qualities.new (result_map_both (λ x. x.read) (λ r. r) result) }
    ensures scale { IfOk result (λ x. Scales config x.read.pdu.no_asdu counts.new values.old values.new x.valued) }
    ensures encode { IfOk result (λ x. EncodesValues fixed config x.read.header x.read.pdu values.new qualities.new frame.old frame.new x.written) }
    ensures write { IfOk result (λ x. x.read.pdu.no_asdu * config.channels ≤ length values.old
        → AllWithin config.channels config.scale_factor counts.new (x.read.pdu.no_asdu * config.channels)
        → Encodes fixed config.channels x.read.header x.read.pdu counts.new qualities.new frame.old frame.new x.written) }
    ensures strict { (f : Description × ℕ) → strict_read fixed config.channels (length counts.old) (length qualities.old) s.now ≡ accepted f
        → IsOkAnd result (λ x. x.read.pdu.no_asdu * config.channels ≤ length values.old
        → AllWithin config.channels config.scale_factor counts.new (x.read.pdu.no_asdu * config.channels)
        → length s.now ≤ length frame.old
        → (x.written ≡ Ok (length s.now)) × (frame.new ≡ over frame.old 0 s.now)) }
{
    let read = decode_smv::read_frame(s, config.channels, counts, qualities)?;
    let valued = scaling::values_of(config, read.pdu.no_asdu, counts, values);
    let written = encode_values::encode_values(
        read.header,
        read.pdu,
        config,
        fixed,
        values,
        qualities,
        frame,
    );
    Ok(Answers {
        read,
        valued,
        written,
    })
}
