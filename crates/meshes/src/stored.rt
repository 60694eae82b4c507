// A mesh over lent lists.
mod making;
pub mod replies;

ghost use Rattle.std.specs.Prelude.{◌≡◌, true};
ghost use Rattle.mesh.specs.Stored.{stored_fits};

use crate::fitting::FittingSet;

// The lists keep the limits and the rules, so the mesh over them does.
#[derive(Drop)]
pub struct StoredMesh<'a> {
    set: FittingSet<'a>,
    twins: &'a [u32],
    ghost fitting: { stored_fits set.points.now set.triangles.now twins.now ≡ true },
}
