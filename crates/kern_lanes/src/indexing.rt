ghost use Rattle.std.specs.Prelude.{◌≡◌, slice_get};
ghost use Rattle.std.specs.Option.{ok_or};

use crate::trap::Trap;

/// The lane of that number, from 0. `LaneRange` comes exactly where the vector has no such lane.
pub fn lane_of(lanes: &[u64], index: u64) -> Result<u64, Trap>
    ensures { result ≡ ok_or (slice_get lanes.now index) Trap.LaneRange }
{
    lanes.get(index as usize).copied().ok_or(Trap::LaneRange)
}
