// Room in tracks for more flips.
ghost use Rattle.std.specs.Prelude.{◌≤◌, All, OnOk};
ghost use Rattle.std.specs.List.{AllZip};
ghost use Rattle.plan_core.specs.Steps.{IsRoomier};

use round_pack::TrackList;
use std::alloc::AllocError;

// Makes room in each track for at least `k` more flips.
pub(crate) fn reserve_all(tracks: &mut TrackList, k: usize) -> Result<(), AllocError>
    ensures kept { AllZip IsRoomier tracks.old tracks.new }
    ensures room { OnOk result (All (λ track. k ≤ track.spare) tracks.new) }
{
    for i in 0..tracks.len() {
        tracks.at_mut(i).reserve(k)?;
    }
    Ok(())
}
