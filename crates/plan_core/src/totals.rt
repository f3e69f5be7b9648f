// The rounds of tracks, each counted as often as the weight of its input says, added up.
ghost use Rattle.std.specs.Prelude.{◌≡◌, All, length, map};
ghost use Rattle.edge_table.specs.declared.edge.Edge.{Edge};
ghost use Rattle.tri_theory.specs.Flips.{FlipsTo, Flips};
ghost use Rattle.tri_theory.specs.Rounds.{weighted_sum};
ghost use Rattle.flip_list_law.specs.FlipLists.{round_count, follow};
ghost use Rattle.round_pack.specs.Tracks.{flip};
ghost use Rattle.plan_core.specs.HeldPlans.{lists_of};

use edge_table::Edge;
use round_pack::TrackList;
use tri_check::Instance;

// The rounds of all tracks.
pub(crate) fn sum_rounds(inst: &Instance, tracks: &TrackList) -> u128
    requires { length tracks.now ≡ length inst.now.inputs }
    ensures { result ≡ weighted_sum inst.now.weights (map round_count (lists_of tracks.now)) }
{
    let mut sum: u128 = 0;
    for t in 0..inst.inputs() {
        sum += inst.weighed(t, tracks.at(t as usize).rounds());
    }
    sum
}

// The rounds of all tracks once each has followed an edge.
pub(crate) fn sum_rounds_after(inst: &Instance, tracks: &TrackList, e: Edge) -> u128
    requires number { length tracks.now ≡ length inst.now.inputs }
    requires flips { All (λ track. Flips track.points track.end e) tracks.now }
    ensures { (f : Edge) → All (λ track. FlipsTo track.points track.end e f) tracks.now → result ≡ weighted_sum inst.now.weights (map round_count (map (λ flips. follow flips (flip e f)) (lists_of tracks.now))) }
{
    let mut sum: u128 = 0;
    for t in 0..inst.inputs() {
        sum += inst.weighed(t, tracks.at(t as usize).rounds_after(e));
    }
    sum
}
