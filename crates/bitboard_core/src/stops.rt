//! A line cut behind its first occupied square.
ghost use Rattle.bitboard_core.specs.Stops.{IsUpStop, IsDownStop};

/// The squares of a ray of greater numbers up to its first occupied one.
#[inline(always)]
pub(crate) fn up_to_stop(ray: u64, occupied: u64) -> u64
    ensures { IsUpStop ray occupied result }
{
    let stop = (ray & occupied | 0x8000_0000_0000_0000).trailing_zeros();
    ray & (u64::MAX >> (63 - stop))
}

/// The squares of a ray of lesser numbers down to its first occupied one.
#[inline(always)]
pub(crate) fn down_to_stop(ray: u64, occupied: u64) -> u64
    ensures { IsDownStop ray occupied result }
{
    let stop = (ray & occupied | 1).ilog2();
    ray & (u64::MAX << stop)
}
