// The same of the calls of the static library.
// They take arrays one by one and answer numbers, as in the C interface; each call stands with its
// number and what is beside it, since the contracts speak of each.
ghost use Rattle.std.specs.Prelude.{◌≡◌, ℕ, ◌*◌, ◌≤◌, length, Some, IsSomeAnd};
ghost use Rattle.definition.specs.Frame.{Description};
ghost use Rattle.definition.specs.Answers.{accepted, over};
ghost use Rattle.definition.specs.Flat.{nth, flat_strict};
ghost use Rattle.flat_agreement.specs.Calls.{WriteCall, ReadCall};
ghost use Rattle.lossless.specs.Bounds.{AllWithin};
ghost use Rattle.values_agreement.specs.Calls.{ValuesCall, WriteValuesCall};

use flat_agreement::Answer;
use layout::NO_ASDU;

// What the calls answered; none of those that are not made, because the reading is refused.
#[derive(Clone, Copy)]
pub struct Answers {
    pub read: Answer,
    pub valued: Option<Answer>,
    pub written: Option<Answer>,
}

// Read the ordinary way, and where that is accepted the values of its counts, and the frame of what
// was read with these values: what `hopsickle_write` answers and writes of the counts that were read,
// so the frame itself where strict reading accepts it.
pub fn read_then_write_values(
    s: &[u8],
    scales: &[f32],
    fixed: bool,
    numbers: &mut [u32],
    octets: &mut [u8],
    counts: &mut [i32],
    qualities: &mut [u32],
    values: &mut [f32],
    frame: &mut [u8],
) -> Answers
    ensures read { ReadCall (length scales.now) s.now numbers.old numbers.new octets.old octets.new counts.old counts.new qualities.old qualities.new result.read.number result.read.beside }
    ensures scale { result.read.number ≡ 0 → IsSomeAnd result.valued (λ x. ValuesCall scales.now (nth numbers.new 9) counts.new values.old values.new x.number x.beside) }
    ensures encode { result.read.number ≡ 0 → IsSomeAnd result.written (λ x. WriteValuesCall fixed scales.now numbers.new octets.new values.new qualities.new frame.old frame.new x.number x.beside) }
    ensures write { result.read.number ≡ 0 → nth numbers.new 9 * length scales.now ≤ length values.old
        → AllWithin (length scales.now) scales.now counts.new (nth numbers.new 9 * length scales.now)
        → IsSomeAnd result.written (λ x. WriteCall fixed (length scales.now) numbers.new octets.new counts.new qualities.new frame.old frame.new x.number x.beside) }
    ensures strict { (f : Description × ℕ) → flat_strict fixed (length scales.now) (length numbers.old) (length octets.old) (length counts.old) (length qualities.old) s.now ≡ accepted f
        → nth numbers.new 9 * length scales.now ≤ length values.old
        → AllWithin (length scales.now) scales.now counts.new (nth numbers.new 9 * length scales.now)
        → length s.now ≤ length frame.old
        → (result.written ≡ Some (record { number = 0; beside = length s.now })) × (frame.new ≡ over frame.old 0 s.now) }
{
    let mut beside = 0;
    let number = hopsickle::hopsickle_read(
        s,
        scales.len(),
        numbers,
        octets,
        counts,
        qualities,
        &mut beside,
    );
    let read = Answer { number, beside };
    if 0 < number {
        return Answers {
            read,
            valued: None,
            written: None,
        };
    }
    let no_asdu = numbers[NO_ASDU] as u16;
    let mut beside = 0;
    let number = hopsickle::hopsickle_values(scales, no_asdu, counts, values, &mut beside);
    let valued = Some(Answer { number, beside });
    let mut beside = 0;
    let number = hopsickle::hopsickle_write_values(
        numbers,
        octets,
        scales,
        fixed,
        values,
        qualities,
        frame,
        &mut beside,
    );
    let written = Some(Answer { number, beside });
    Answers {
        read,
        valued,
        written,
    }
}
