// A centre with the tracks that lead to it.
use round_pack::TrackList;
use tri_check::Triang;

/// A centre, and for each input of an instance a track from the input to it.
#[derive(Drop)]
pub struct Start {
    pub centre: Triang,
    pub tracks: TrackList,
}
