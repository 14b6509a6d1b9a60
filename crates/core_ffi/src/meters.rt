// The link meter in the caller's storage: three slices.
ghost use Rattle.std.specs.Prelude.{◌≡◌};
ghost use Rattle.refusals.specs.Numbers.{answered, by_number, refusal_number};
ghost use Rattle.core_ffi.specs.Convention.{answered as number_answered};
ghost use Rattle.core_ffi.specs.Meters.{MeterNewReturned, MeterTakeReturned, cells_refusal, meter_forecast_answer};
ghost use Rattle.core_ffi.specs.Meters.{meter_in, storage, stored_in};
ghost use Rattle.core_ffi.specs.lemmas.Numbers.{answer_number};

use meter::Meter;
use refusals::Refusal;

// The meter that the storage holds, or 11.
fn meter_in(slots: &[u16], bytes: &[u32], kept: &[u8]) -> Result<Meter, Refusal>
    ensures { by_number result ≡ answered (cells_refusal (storage slots.now bytes.now kept.now))
        (meter_in (storage slots.now bytes.now kept.now)) }
{
    match (slots.first_chunk(), bytes.first_chunk(), kept.first()) {
        (Some(slots), Some(bytes), Some(kept)) => Ok(Meter {
            slots: *slots,
            bytes: *bytes,
            kept: *kept,
        }),
        _ => Err(Refusal::ShortBuffer),
    }
}

// A meter put into the storage, or 11.
fn store(m: Meter, slots: &mut [u16], bytes: &mut [u32], kept: &mut [u8]) -> Result<(), Refusal>
    ensures refused { refusal_number result ≡ cells_refusal (storage slots.old bytes.old kept.old) }
    ensures stored { storage slots.new bytes.new kept.new
        ≡ stored_in (cells_refusal (storage slots.old bytes.old kept.old)) m
        (storage slots.old bytes.old kept.old) }
{
    let Some(first) = slots.first_chunk_mut() else {
        return Err(Refusal::ShortBuffer);
    };
    let Some(second) = bytes.first_chunk_mut() else {
        return Err(Refusal::ShortBuffer);
    };
    let Some(count) = kept.first_mut() else {
        return Err(Refusal::ShortBuffer);
    };
    let own_slots = m.slots;
    let own_bytes = m.bytes;
    *first = own_slots;
    *second = own_bytes;
    *count = m.kept;
    Ok(())
}

// A meter without samples, into the storage.
pub fn begin_meter(slots: &mut [u16], bytes: &mut [u32], kept: &mut [u8]) -> Result<(), Refusal>
    ensures { MeterNewReturned (storage slots.old bytes.old kept.old)
        (number_answered (refusal_number result) 0)
        (storage slots.new bytes.new kept.new) }
{
    store(meter::new(), slots, bytes, kept)
}

// A sample taken by the meter in the storage. Where that is none, the sample's own 10 comes before
// 11: it is what a meter without samples refuses.
pub fn take_sample(
    slots: &mut [u16],
    bytes: &mut [u32],
    kept: &mut [u8],
    slot: u16,
    sample: u32,
) -> Result<(), Refusal>
    ensures { MeterTakeReturned (storage slots.old bytes.old kept.old) slot sample
        (number_answered (refusal_number result) 0)
        (storage slots.new bytes.new kept.new) }
{
    let held = match meter_in(slots, bytes, kept) {
        Ok(held) => held,
        Err(short) => {
            meter::take(meter::new(), slot, sample)?;
            return Err(short);
        }
    };
    let after = meter::take(held, slot, sample)?;
    store(after, slots, bytes, kept)
}

// The forecast of the meter in the storage.
pub fn forecast(slots: &[u16], bytes: &[u32], kept: &[u8]) -> Result<u32, Refusal>
    ensures { answer_number (by_number result) ≡
        meter_forecast_answer (storage slots.now bytes.now kept.now) }
{
    meter::forecast(meter_in(slots, bytes, kept)?)
}
