// Demand 3 of the calls, as contracts: each function makes two calls, and promises of their answers
// what the theorem of its name in `flat_agreement` says, for every content and every length of the
// arrays. Nothing is asked of its caller. Arrays are parameters one by one, as in the C interface.
// `record_agreement` promises the same of the calls that take records.
// `fixed` is the form of the counters: fixed, or else shortest.
// A call answers the number of a refusal, or 0 where it accepts, as in the C interface. Each call stands
// with its number and what is beside it, since the contracts speak of each.
#![tactic(auto)]

ghost use Rattle.std.specs.Prelude.{◌≡◌, ◌*◌, ◌≤◌, length, take, not, Some, IsSomeAnd};
ghost use Rattle.definition.specs.Limits.{bad_description};
ghost use Rattle.definition.specs.Frame.{all};
ghost use Rattle.definition.specs.Answers.{accepted, refuse, over};
ghost use Rattle.definition.specs.Sizes.{quality_fits};
ghost use Rattle.definition.specs.Flat.{nth, number_of, beside_it};
ghost use Rattle.flat_agreement.specs.Calls.{WriteCall, SizeCall, StrictCall, ReadCall, Room};
ghost use Rattle.flat_agreement.specs.Same.{SameFlat};
ghost use Rattle.flat_agreement.specs.Theorems.{Returned};

use flat_agreement::Answer;

// What two calls answered. Where the second is made only after an accepted first, `T` is
// `Option<Answer>`, and none is the answer of a call that is not made.
#[derive(Clone, Copy)]
pub struct Answers<T> {
    pub first: Answer,
    pub second: T,
}

// Written, and where that is accepted strictly read.
pub fn write_then_read(
    numbers: &[u32],
    octets: &[u8],
    channels: usize,
    fixed: bool,
    counts: &[i32],
    qualities: &[u32],
    frame: &mut [u8],
    numbers_back: &mut [u32],
    octets_back: &mut [u8],
    counts_back: &mut [i32],
    qualities_back: &mut [u32],
) -> Answers<Option<Answer>>
    ensures write { WriteCall fixed channels numbers.now octets.now counts.now qualities.now frame.old frame.new result.first.number result.first.beside }
    ensures read { result.first.number ≡ 0 → Room (nth numbers.now 9) channels numbers_back.old octets_back.old counts_back.old qualities_back.old
        → IsSomeAnd result.second (λ x. Returned fixed channels numbers.now octets.now counts.now qualities.now numbers_back.old numbers_back.new octets_back.old octets_back.new counts_back.old counts_back.new qualities_back.old qualities_back.new x.number x.beside) }
{
    record_agreement::widths::counts(counts);
    let mut size = 0;
    let number = hopsickle::hopsickle_write(
        numbers, octets, channels, fixed, counts, qualities, frame, &mut size,
    );
    let first = Answer {
        number,
        beside: size,
    };
    if 0 < number {
        return Answers {
            first,
            second: None,
        };
    }
    let mut beside = 0;
    let number = hopsickle::hopsickle_read_strict(
        &frame[..size],
        channels,
        fixed,
        numbers_back,
        octets_back,
        counts_back,
        qualities_back,
        &mut beside,
    );
    Answers {
        first,
        second: Some(Answer { number, beside }),
    }
}

// Strictly read, and where that is accepted written from what was handed back.
pub fn read_then_write(
    s: &[u8],
    channels: usize,
    fixed: bool,
    numbers: &mut [u32],
    octets: &mut [u8],
    counts: &mut [i32],
    qualities: &mut [u32],
    frame: &mut [u8],
) -> Answers<Option<Answer>>
    ensures read { StrictCall fixed channels s.now numbers.old numbers.new octets.old octets.new counts.old counts.new qualities.old qualities.new result.first.number result.first.beside }
    ensures write { result.first.number ≡ 0 → length s.now ≤ length frame.old
        → (result.second ≡ Some (record { number = 0; beside = length s.now })) × (frame.new ≡ over frame.old 0 s.now) }
{
    let mut beside = 0;
    let number = hopsickle::hopsickle_read_strict(
        s,
        channels,
        fixed,
        numbers,
        octets,
        counts,
        qualities,
        &mut beside,
    );
    let first = Answer { number, beside };
    if 0 < number {
        return Answers {
            first,
            second: None,
        };
    }
    let mut beside = 0;
    let number = hopsickle::hopsickle_write(
        numbers,
        octets,
        channels,
        fixed,
        counts,
        qualities,
        frame,
        &mut beside,
    );
    Answers {
        first,
        second: Some(Answer { number, beside }),
    }
}

// Strictly read, and read the ordinary way into arrays that held the same.
pub fn read_both(
    s: &[u8],
    channels: usize,
    fixed: bool,
    numbers: &mut [u32],
    octets: &mut [u8],
    counts: &mut [i32],
    qualities: &mut [u32],
    other_numbers: &mut [u32],
    other_octets: &mut [u8],
    other_counts: &mut [i32],
    other_qualities: &mut [u32],
) -> Answers<Answer>
    ensures strict { StrictCall fixed channels s.now numbers.old numbers.new octets.old octets.new counts.old counts.new qualities.old qualities.new result.first.number result.first.beside }
    ensures ordinary { ReadCall channels s.now other_numbers.old other_numbers.new other_octets.old other_octets.new other_counts.old other_counts.new other_qualities.old other_qualities.new result.second.number result.second.beside }
    ensures same { result.first.number ≡ 0 → numbers.old ≡ other_numbers.old → octets.old ≡ other_octets.old → counts.old ≡ other_counts.old → qualities.old ≡ other_qualities.old
        → (result.second.number ≡ 0) × (result.second.beside ≡ 0) × (other_numbers.new ≡ numbers.new) × (other_octets.new ≡ octets.new) × (other_counts.new ≡ counts.new) × (other_qualities.new ≡ qualities.new) }
{
    let mut beside = 0;
    let number = hopsickle::hopsickle_read_strict(
        s,
        channels,
        fixed,
        numbers,
        octets,
        counts,
        qualities,
        &mut beside,
    );
    let first = Answer { number, beside };
    let mut beside = 0;
    let number = hopsickle::hopsickle_read(
        s,
        channels,
        other_numbers,
        other_octets,
        other_counts,
        other_qualities,
        &mut beside,
    );
    let second = Answer { number, beside };
    Answers { first, second }
}

// Two descriptions are written, each in its form.
pub fn write_both(
    channels: usize,
    numbers: &[u32],
    octets: &[u8],
    fixed: bool,
    counts: &[i32],
    qualities: &[u32],
    frame: &mut [u8],
    other_numbers: &[u32],
    other_octets: &[u8],
    other_fixed: bool,
    other_counts: &[i32],
    other_qualities: &[u32],
    other_frame: &mut [u8],
) -> Answers<Answer>
    ensures one { WriteCall fixed channels numbers.now octets.now counts.now qualities.now frame.old frame.new result.first.number result.first.beside }
    ensures other { WriteCall other_fixed channels other_numbers.now other_octets.now other_counts.now other_qualities.now other_frame.old other_frame.new result.second.number result.second.beside }
    ensures same { result.first.number ≡ 0 → result.second.number ≡ 0 → take result.first.beside frame.new ≡ take result.second.beside other_frame.new
        → SameFlat channels numbers.now octets.now counts.now qualities.now other_numbers.now other_octets.now other_counts.now other_qualities.now }
{
    record_agreement::widths::counts(counts);
    record_agreement::widths::counts(other_counts);
    let mut beside = 0;
    let number = hopsickle::hopsickle_write(
        numbers,
        octets,
        channels,
        fixed,
        counts,
        qualities,
        frame,
        &mut beside,
    );
    let first = Answer { number, beside };
    let mut beside = 0;
    let number = hopsickle::hopsickle_write(
        other_numbers,
        other_octets,
        channels,
        other_fixed,
        other_counts,
        other_qualities,
        other_frame,
        &mut beside,
    );
    let second = Answer { number, beside };
    Answers { first, second }
}

// The size, and written.
pub fn size_then_write(
    numbers: &[u32],
    octets: &[u8],
    channels: usize,
    fixed: bool,
    counts: &[i32],
    qualities: &[u32],
    frame: &mut [u8],
) -> Answers<Answer>
    ensures size { SizeCall fixed channels numbers.now octets.now result.first.number result.first.beside }
    ensures write { WriteCall fixed channels numbers.now octets.now counts.now qualities.now frame.old frame.new result.second.number result.second.beside }
    ensures written { result.second.number ≡ 0 → (result.first.number ≡ 0) × (result.first.beside ≡ result.second.beside) }
    ensures enough { result.first.number ≡ 0 → nth numbers.now 9 * channels ≤ length counts.now → nth numbers.now 9 * channels ≤ length qualities.now → result.first.beside ≤ length frame.old
        → (result.second.number ≡ number_of (refuse (not (all quality_fits (take (nth numbers.now 9 * channels) qualities.now))) bad_description (accepted result.first.beside)))
        × (result.second.beside ≡ beside_it (λ n. n) (refuse (not (all quality_fits (take (nth numbers.now 9 * channels) qualities.now))) bad_description (accepted result.first.beside))) }
{
    let mut beside = 0;
    let number = hopsickle::hopsickle_size(numbers, octets, channels, fixed, &mut beside);
    let first = Answer { number, beside };
    let mut beside = 0;
    let number = hopsickle::hopsickle_write(
        numbers,
        octets,
        channels,
        fixed,
        counts,
        qualities,
        frame,
        &mut beside,
    );
    let second = Answer { number, beside };
    Answers { first, second }
}
