// The link meter in the caller's own storage.
ghost use Rattle.std.specs.Prelude.{◌≡◌};
ghost use Rattle.meter.specs.Meter.{sample};
ghost use Rattle.core_ffi.specs.Meters.{MeterNewReturned, MeterTakeReturned, meter_forecast_answer, storage};

// `meter::new` into the caller's storage.
#[unsafe(no_mangle)]
pub extern "C" fn film_meter_new(slots: &mut [u16], bytes: &mut [u32], kept: &mut [u8]) -> u64
    ensures { MeterNewReturned (storage slots.old bytes.old kept.old)
        result (storage slots.new bytes.new kept.new) }
{
    core_ffi::done(core_ffi::begin_meter(slots, bytes, kept))
}

// `meter::take` of the meter in the caller's storage.
#[unsafe(no_mangle)]
pub extern "C" fn film_meter_take(
    slots: &mut [u16],
    bytes: &mut [u32],
    kept: &mut [u8],
    slot: u16,
    sample: u32,
) -> u64
    ensures { MeterTakeReturned (storage slots.old bytes.old kept.old)
        slot sample result (storage slots.new bytes.new kept.new) }
{
    core_ffi::done(core_ffi::take_sample(slots, bytes, kept, slot, sample))
}

// `meter::forecast` of the meter in the caller's storage.
#[unsafe(no_mangle)]
pub extern "C" fn film_meter_forecast(slots: &[u16], bytes: &[u32], kept: &[u8]) -> u64
    ensures { result ≡ meter_forecast_answer (storage slots.now bytes.now kept.now) }
{
    core_ffi::number(core_ffi::forecast(slots, bytes, kept).map(|n| n as usize))
}
