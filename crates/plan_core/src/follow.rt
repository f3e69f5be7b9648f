// Following an edge in tracks.
ghost use Rattle.std.specs.Prelude.{◌<◌, All};
ghost use Rattle.std.specs.List.{AllZip};
ghost use Rattle.tri_theory.specs.Flips.{Flips};
ghost use Rattle.plan_core.specs.Steps.{IsFollowed};

use edge_table::Edge;
use round_pack::{Track, TrackList};

// Follows an edge that flips in a track's end.
pub(crate) fn follow_in(track: &mut Track, e: Edge)
    requires flips { Flips track.old.points track.old.end e }
    requires spare { 0 < track.old.spare }
    ensures { IsFollowed e track.old track.new }
{
    if !track.cancel(e) {
        track.append(e);
    }
}

// Follows an edge in each track.
pub(crate) fn follow_all(tracks: &mut TrackList, e: Edge)
    requires flips { All (λ track. Flips track.points track.end e) tracks.old }
    requires spare { All (λ track. 0 < track.spare) tracks.old }
    ensures { AllZip (IsFollowed e) tracks.old tracks.new }
{
    for i in 0..tracks.len() {
        follow_in(tracks.at_mut(i), e);
    }
}
