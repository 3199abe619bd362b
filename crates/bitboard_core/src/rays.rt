//! The squares along each of the eight lines from a square, up to the first occupied one.
ghost use Rattle.bitboard_core.specs.Rays.{Sense, IsRaySet};

use crate::stops::{down_to_stop, up_to_stop};
use crate::tables::{EAST, NORTH, NORTH_EAST, NORTH_WEST, SOUTH, SOUTH_EAST, SOUTH_WEST, WEST};
use chess_model::Square;

#[inline(always)]
pub(crate) fn north(s: Square, occupied: u64) -> u64
    ensures { IsRaySet Sense.Stays Sense.Rises s occupied result }
{
    up_to_stop(NORTH[s.number() as usize], occupied)
}

#[inline(always)]
pub(crate) fn east(s: Square, occupied: u64) -> u64
    ensures { IsRaySet Sense.Rises Sense.Stays s occupied result }
{
    up_to_stop(EAST[s.number() as usize], occupied)
}

#[inline(always)]
pub(crate) fn south(s: Square, occupied: u64) -> u64
    ensures { IsRaySet Sense.Stays Sense.Falls s occupied result }
{
    down_to_stop(SOUTH[s.number() as usize], occupied)
}

#[inline(always)]
pub(crate) fn west(s: Square, occupied: u64) -> u64
    ensures { IsRaySet Sense.Falls Sense.Stays s occupied result }
{
    down_to_stop(WEST[s.number() as usize], occupied)
}

#[inline(always)]
pub(crate) fn north_east(s: Square, occupied: u64) -> u64
    ensures { IsRaySet Sense.Rises Sense.Rises s occupied result }
{
    up_to_stop(NORTH_EAST[s.number() as usize], occupied)
}

#[inline(always)]
pub(crate) fn north_west(s: Square, occupied: u64) -> u64
    ensures { IsRaySet Sense.Falls Sense.Rises s occupied result }
{
    up_to_stop(NORTH_WEST[s.number() as usize], occupied)
}

#[inline(always)]
pub(crate) fn south_east(s: Square, occupied: u64) -> u64
    ensures { IsRaySet Sense.Rises Sense.Falls s occupied result }
{
    down_to_stop(SOUTH_EAST[s.number() as usize], occupied)
}

#[inline(always)]
pub(crate) fn south_west(s: Square, occupied: u64) -> u64
    ensures { IsRaySet Sense.Falls Sense.Falls s occupied result }
{
    down_to_stop(SOUTH_WEST[s.number() as usize], occupied)
}
