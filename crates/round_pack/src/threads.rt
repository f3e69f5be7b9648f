// What may cross threads. Each function here is proved where the types named in its calls do.
use crate::{Track, TrackList};

fn crosses<T: Send + Sync>(_it: &T) {}

// Tracks and lists of them may be moved and shared.
fn _tracks_cross_threads(track: &Track, list: &TrackList) {
    crosses(track);
    crosses(list);
}
