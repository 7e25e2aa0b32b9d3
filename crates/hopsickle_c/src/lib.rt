// The static library: the functions that programs in C and Rust call. Each is the function of the same
// name in the crate hopsickle, and promises the same; proved functions that make several calls stand
// on that crate, since no crate can stand on a static library.
// The arrays are lent one by one and answers are numbers, since that is what C has.
#![tactic(auto)]

ghost use Rattle.std.specs.Prelude.{◌≡◌, ◌*◌, length};
ghost use Rattle.definition.specs.Read.{is_smv_frame};
ghost use Rattle.definition.specs.Frame.{frame_octets};
ghost use Rattle.definition.specs.Scaling.{values_answer, values_of};
ghost use Rattle.definition.specs.Flat.{flat_description, flat_header, flat_read, flat_decode, flat_strict, flat_encode, flat_encode_values, flat_size, number_of, beside_it, flat_counts, flat_counts_given, flat_described_by};
ghost use Rattle.grant.specs.Grant.{flat_granted};
ghost use Rattle.fit.specs.Fit.{flat_checked};
ghost use Rattle.data_sets.specs.DataSets.{flat_read_by, store_of, channels_of, Adds, ReadsBy};
ghost use Rattle.rt_services.specs.DataSet.{data_set_of};
ghost use Rattle.definition.specs.Calls.{Reads, ReadsHeader, Writes};

use rt_services::SavDataSetConfig;
use set_store::DataSets;

// Whether the EtherType is there, and is that of sampled values.
#[unsafe(no_mangle)]
pub extern "C" fn hopsickle_is_smv(frame: &[u8]) -> bool
    ensures { result ≡ is_smv_frame frame.now }
{
    hopsickle::hopsickle_is_smv(frame)
}

// The header: the first 6 numbers and the first 12 octets, and the place after it.
#[unsafe(no_mangle)]
pub extern "C" fn hopsickle_header(
    frame: &[u8],
    numbers: &mut [u32],
    octets: &mut [u8],
    place: &mut usize,
) -> usize
    ensures { ReadsHeader (flat_header (length numbers.old) (length octets.old) frame.now)
        numbers.old numbers.new octets.old octets.new result place.new }
{
    hopsickle::hopsickle_header(frame, numbers, octets, place)
}

// A frame, the ordinary way.
#[unsafe(no_mangle)]
pub extern "C" fn hopsickle_read(
    frame: &[u8],
    channels: usize,
    numbers: &mut [u32],
    octets: &mut [u8],
    counts: &mut [i32],
    qualities: &mut [u32],
    place: &mut usize,
) -> usize
    ensures { Reads (flat_read channels (length numbers.old) (length octets.old) (length counts.old) (length qualities.old) frame.now)
        numbers.old numbers.new octets.old octets.new counts.old counts.new qualities.old qualities.new result place.new }
{
    hopsickle::hopsickle_read(frame, channels, numbers, octets, counts, qualities, place)
}

// A frame, the ordinary way, if the data set fits it: in every ASDU the length after 87 is 8 times the
// channels.
#[unsafe(no_mangle)]
pub extern "C" fn hopsickle_read_checked(
    frame: &[u8],
    channels: usize,
    numbers: &mut [u32],
    octets: &mut [u8],
    counts: &mut [i32],
    qualities: &mut [u32],
    place: &mut usize,
) -> usize
    ensures { Reads (flat_checked channels (length numbers.old) (length octets.old) (length counts.old) (length qualities.old) frame.now)
        numbers.old numbers.new octets.old octets.new counts.old counts.new qualities.old qualities.new result place.new }
{
    hopsickle::hopsickle_read_checked(frame, channels, numbers, octets, counts, qualities, place)
}

// A PDU from a place on; the header's numbers and octets are zero.
#[unsafe(no_mangle)]
pub extern "C" fn hopsickle_decode(
    frame: &[u8],
    at: usize,
    channels: usize,
    numbers: &mut [u32],
    octets: &mut [u8],
    counts: &mut [i32],
    qualities: &mut [u32],
    place: &mut usize,
) -> usize
    ensures { Reads (flat_decode channels (length numbers.old) (length octets.old) (length counts.old) (length qualities.old) frame.now at)
        numbers.old numbers.new octets.old octets.new counts.old counts.new qualities.old qualities.new result place.new }
{
    hopsickle::hopsickle_decode(
        frame, at, channels, numbers, octets, counts, qualities, place,
    )
}

// A frame, if it is what the writer writes of what was read.
#[unsafe(no_mangle)]
pub extern "C" fn hopsickle_read_strict(
    frame: &[u8],
    channels: usize,
    fixed: bool,
    numbers: &mut [u32],
    octets: &mut [u8],
    counts: &mut [i32],
    qualities: &mut [u32],
    place: &mut usize,
) -> usize
    ensures { Reads (flat_strict fixed channels (length numbers.old) (length octets.old) (length counts.old) (length qualities.old) frame.now)
        numbers.old numbers.new octets.old octets.new counts.old counts.new qualities.old qualities.new result place.new }
{
    hopsickle::hopsickle_read_strict(
        frame, channels, fixed, numbers, octets, counts, qualities, place,
    )
}

// A frame, the ordinary way, for a customer: the counts and quality words of the channels that the
// mask shows, and of no other.
#[unsafe(no_mangle)]
pub extern "C" fn hopsickle_read_granted(
    frame: &[u8],
    channels: usize,
    mask: u32,
    numbers: &mut [u32],
    octets: &mut [u8],
    counts: &mut [i32],
    qualities: &mut [u32],
    place: &mut usize,
) -> usize
    ensures { Reads (flat_granted channels mask (length numbers.old) (length octets.old) (length counts.old) (length qualities.old) frame.now)
        numbers.old numbers.new octets.old octets.new counts.old counts.new qualities.old qualities.new result place.new }
{
    hopsickle::hopsickle_read_granted(
        frame, channels, mask, numbers, octets, counts, qualities, place,
    )
}

// Adds a data set to those of a store: one scale factor for each channel. Writes how many sets the
// store then holds.
#[unsafe(no_mangle)]
pub extern "C" fn hopsickle_sets_add(
    sets: &mut [u32; DataSets::NUMBERS],
    set_scales: &mut [f32; DataSets::SCALES],
    conf_rev: u32,
    scales: &[f32],
    held: &mut usize,
) -> usize
    ensures { Adds conf_rev (data_set_of scales.now) sets.old sets.new set_scales.old set_scales.new result held.new }
{
    hopsickle::hopsickle_sets_add(sets, set_scales, conf_rev, scales, held)
}

// A frame, the ordinary way, with the data set of its first ASDU's confRev, whose channels and scale
// factors are handed back.
#[unsafe(no_mangle)]
pub extern "C" fn hopsickle_read_by_sets(
    frame: &[u8],
    sets: &[u32; DataSets::NUMBERS],
    set_scales: &[f32; DataSets::SCALES],
    channels: &mut usize,
    scales: &mut [f32; SavDataSetConfig::MAX_CHANNELS],
    numbers: &mut [u32],
    octets: &mut [u8],
    counts: &mut [i32],
    qualities: &mut [u32],
    place: &mut usize,
) -> usize
    ensures { ReadsBy (flat_read_by channels_of (store_of sets.now set_scales.now) (length numbers.old) (length octets.old) (length counts.old) (length qualities.old) frame.now)
        numbers.old numbers.new octets.old octets.new counts.old counts.new qualities.old qualities.new channels.old channels.new scales.old scales.new result place.new }
{
    hopsickle::hopsickle_read_by_sets(
        frame, sets, set_scales, channels, scales, numbers, octets, counts, qualities, place,
    )
}

// Writes the frame of a description with these counts and quality words.
#[unsafe(no_mangle)]
pub extern "C" fn hopsickle_write(
    numbers: &[u32],
    octets: &[u8],
    channels: usize,
    fixed: bool,
    counts: &[i32],
    qualities: &[u32],
    frame: &mut [u8],
    size: &mut usize,
) -> usize
    ensures { Writes (flat_encode fixed channels numbers.now octets.now counts.now qualities.now (length frame.old))
        (frame_octets fixed (flat_description channels numbers.now octets.now counts.now qualities.now)) frame.old frame.new result size.new }
{
    hopsickle::hopsickle_write(
        numbers, octets, channels, fixed, counts, qualities, frame, size,
    )
}

// Writes the frame of a description whose counts are those of the values: one scale factor for
// each channel.
#[unsafe(no_mangle)]
pub extern "C" fn hopsickle_write_values(
    numbers: &[u32],
    octets: &[u8],
    scales: &[f32],
    fixed: bool,
    values: &[f32],
    qualities: &[u32],
    frame: &mut [u8],
    size: &mut usize,
) -> usize
    ensures { Writes (flat_encode_values fixed (length scales.now) numbers.now octets.now (length values.now) (flat_counts numbers.now scales.now values.now) (flat_counts_given numbers.now scales.now values.now) qualities.now (length frame.old))
        (frame_octets fixed (flat_described_by numbers.now octets.now scales.now values.now qualities.now)) frame.old frame.new result size.new }
{
    hopsickle::hopsickle_write_values(
        numbers, octets, scales, fixed, values, qualities, frame, size,
    )
}

// How many octets the frame of a description is written in.
#[unsafe(no_mangle)]
pub extern "C" fn hopsickle_size(
    numbers: &[u32],
    octets: &[u8],
    channels: usize,
    fixed: bool,
    size: &mut usize,
) -> usize
    ensures { (result ≡ number_of (flat_size fixed channels numbers.now octets.now))
        × (size.new ≡ beside_it (λ n. n) (flat_size fixed channels numbers.now octets.now)) }
{
    hopsickle::hopsickle_size(numbers, octets, channels, fixed, size)
}

// The values of the counts of no_asdu ASDUs: one scale factor for each channel.
#[unsafe(no_mangle)]
pub extern "C" fn hopsickle_values(
    scales: &[f32],
    no_asdu: u16,
    counts: &[i32],
    values: &mut [f32],
    size: &mut usize,
) -> usize
    ensures { Writes (values_answer (length scales.now) no_asdu (length counts.now) (length values.old))
        (values_of (length scales.now) scales.now counts.now (no_asdu * length scales.now)) values.old values.new result size.new }
{
    hopsickle::hopsickle_values(scales, no_asdu, counts, values, size)
}
