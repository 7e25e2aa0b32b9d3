// The parts of the calls of the static library that are no other crate's: an answer as two numbers,
// the header, an addition to a store of data sets, the values of counts.
// Arrays are parameters one by one, as the C interface lends them.
#![tactic(auto)]

ghost use Rattle.std.specs.Prelude.{◌≡◌, ◌*◌, length};
ghost use Rattle.definition.specs.Answers.{accepted, refuse_channels};
ghost use Rattle.definition.specs.Scaling.{values_answer, values_of};
ghost use Rattle.definition.specs.Flat.{numbers_of_header, octets_of_header, flat_header, left, number_of, beside_it};
ghost use Rattle.rt_services.specs.DataSet.{data_set_of};
ghost use Rattle.rt_services.specs.Reasons.{told};
ghost use Rattle.rt_services.specs.Told.{answer_as, WritesAt};
ghost use Rattle.set_store.specs.Told.{AddedTo};

use flat_decode::{numbers, octets};
use rt_services::{Reason, Refusal, SavDataSetConfig};
use set_store::DataSets;

// The number of a refusal, and its place beside it; or 0, and the size, place or count that was
// answered.
pub fn answer(r: Result<usize, Refusal>, beside: &mut usize) -> usize
    ensures { (result ≡ number_of (told r)) × (beside.new ≡ beside_it (λ n. n) (told r)) }
{
    match r {
        Err(refusal) => {
            *beside = refusal.place;
            refusal.reason.number()
        }
        Ok(n) => {
            *beside = n;
            0
        }
    }
}

// The header: the first 6 numbers and the first 12 octets. The answer is the place after it.
pub fn header(frame: &[u8], numbers: &mut [u32], octets: &mut [u8]) -> Result<usize, Refusal>
    ensures answer { told result ≡ answer_as (λ x. x.1) (flat_header (length numbers.old) (length octets.old) frame.now) }
    ensures numbers { numbers.new ≡ left (λ x. numbers_of_header x.0) (flat_header (length numbers.old) (length octets.old) frame.now) numbers.old }
    ensures octets { octets.new ≡ left (λ x. octets_of_header x.0) (flat_header (length numbers.old) (length octets.old) frame.now) octets.old }
{
    let (header, after) = ethernet_header::decode_ethernet_header(frame)?;
    if numbers.len() < layout::HEADER_NUMBERS || octets.len() < layout::HEADER_OCTETS {
        return Err(Reason::NoRoom.at(0));
    }
    numbers::put_header(numbers, header);
    octets::put_header(octets, header);
    Ok(after.at)
}

// The data set of these scale factors, one for each channel.
fn data_set(scales: &[f32]) -> Result<SavDataSetConfig, Refusal>
    ensures { told result ≡ refuse_channels (length scales.now) (accepted (data_set_of scales.now)) }
{
    if SavDataSetConfig::MAX_CHANNELS < scales.len() {
        return Err(Reason::TooManyChannels.at(0));
    }
    Ok(flat_encode::data_set(scales))
}

// Adds a data set to those of a store: one scale factor for each channel. The answer is how many
// sets the store then holds.
pub fn sets_add(
    sets: &mut [u32; DataSets::NUMBERS],
    set_scales: &mut [f32; DataSets::SCALES],
    conf_rev: u32,
    scales: &[f32],
) -> Result<usize, Refusal>
    ensures { AddedTo conf_rev (data_set_of scales.now) sets.old set_scales.old result sets.new set_scales.new }
{
    let set = data_set(scales)?;
    set_store::add_to(sets, set_scales, conf_rev, set)
}

// The values of the counts of no_asdu ASDUs: one scale factor for each channel. The answer is how
// many values there are.
pub fn values(
    scales: &[f32],
    no_asdu: u16,
    counts: &[i32],
    values: &mut [f32],
) -> Result<usize, Refusal>
    ensures { WritesAt (values_answer (length scales.now) no_asdu (length counts.now) (length values.old)) 0
        (values_of (length scales.now) scales.now counts.now (no_asdu * length scales.now)) values.old result values.new }
{
    let config = data_set(scales)?;
    scaling::values_of(config, no_asdu, counts, values)
}
