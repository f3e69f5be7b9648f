// What may cross threads. Each function here is proved where the types named in its calls do.
use crate::{Mesh, Quad, Wings};

fn crosses<T: Send + Sync>(_it: &T) {}

// Meshes and what they answer may be moved and shared.
fn _meshes_cross_threads(mesh: &Mesh, quad: &Quad, wings: &Wings) {
    crosses(mesh);
    crosses(quad);
    crosses(wings);
}
