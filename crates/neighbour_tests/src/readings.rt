use odometer::Odometer;

// The number of the reading's fault, if it has one, and the way afterwards. A good reading answers that way.
pub(crate) fn read<O: Odometer>(odometer: &mut O, reading: O::Reading) -> (Option<u8>, u64) {
    match odometer.take(reading) {
        Ok(way) => (None, way.millimetres),
        Err(fault) => (Some(fault.number()), odometer.way().millimetres),
    }
}
