// Lists of tracks.
use crate::Track;
use item_list::{Copied, ItemList};
use std::alloc::AllocError;

/// A list of tracks.
pub type TrackList = ItemList<Track>;

impl Copied for Track {
    fn copy(&self) -> Result<Self, AllocError> {
        Track::copy(self)
    }
}
