// A stored mesh is made by filling one that the caller holds, by rule; so `fill` and `new` take all that a mesh has.
ghost use Rattle.std.specs.Prelude.{◌≡◌, ◌*◌, false, [], length, if◌then◌else◌, is_some, IfSome, Ok, Err};
ghost use Rattle.mesh.specs.Every.{every_below};
ghost use Rattle.mesh.specs.Stored.{stored, stored_fits, answered as is_answered, twin_kept};
ghost use Rattle.meshes.specs.Refusals.{told};
ghost use Rattle.meshes.specs.Views.{stored_of};

use super::StoredMesh;
use crate::fitting::FittingSet;
use crate::refusal::MeshRefusal;
use mesh::{NO_TWIN, Point, Triangle};

// The twin list is passed along, as in pairing: a stored mesh lends it to look at, and pairing to write, so it is no
// part of the set.
impl FittingSet<'_> {
    // Whether half-edge `g` has `h` as its twin, and runs the other way.
    fn answered(&self, twins: &[u32], h: u32, g: u32) -> bool
        ensures { result ≡ is_answered self.now.triangles.now twins.now h g }
    {
        twins.get(g as usize) == Some(&h) && self.against(h, g)
    }

    // Whether every half-edge has no twin, or a right one.
    fn twins_stand(&self, twins: &[u32]) -> bool
        requires { length twins.now ≡ 3 * length self.now.triangles.now }
        ensures { result ≡ every_below (twin_kept self.now.triangles.now twins.now) (length twins.now) }
    {
        twins.iter().enumerate().all(|(h, &g)| g == NO_TWIN || self.answered(twins, h as u32, g))
    }
}

impl<'a> StoredMesh<'a> {
    // One to fill: no points and no triangles.
    #[tactic(auto, unfolding(mesh::specs::Stored::set_fits, mesh::specs::Stored::lists_fit, mesh::specs::Stored::stored_fits))]
    pub fn empty() -> StoredMesh<'a>
        ensures { stored_of result ≡ stored [] [] [] }
    {
        StoredMesh {
            set: FittingSet {
                points: &[],
                triangles: &[],
            },
            twins: &[],
        }
    }

    // The mesh over these lists, if they keep the limits and the rules.
    #[tactic(auto, unfolding(mesh::specs::Stored::stored_fits))]
    fn new(
        points: &'a [Point],
        triangles: &'a [Triangle],
        twins: &'a [u32],
    ) -> Option<StoredMesh<'a>>
        ensures fits { is_some result ≡ stored_fits points.now triangles.now twins.now }
        ensures means { IfSome result (λ mesh. stored_of mesh ≡ stored points.now triangles.now twins.now) }
    {
        let set = FittingSet::new(points, triangles, twins)?;
        // An `if`, since a closure for `then` would need clauses of its own for the ghost fields.
        if set.twins_stand(twins) {
            Some(StoredMesh { set, twins })
        } else {
            None
        }
    }

    // Becomes the mesh over these lists if they keep the limits and the rules, and else stays what it was.
    pub fn fill(
        &mut self,
        points: &'a [Point],
        triangles: &'a [Triangle],
        twins: &'a [u32],
    ) -> Result<(), MeshRefusal>
        ensures says { told result ≡ (if stored_fits points.now triangles.now twins.now then Ok tt else Err 10) }
        ensures means { stored_of self.new ≡ (if stored_fits points.now triangles.now twins.now then stored points.now triangles.now twins.now else stored_of self.old) }
        ensures kept { stored_fits points.now triangles.now twins.now ≡ false → self.new ≡ self.old }
    {
        *self = StoredMesh::new(points, triangles, twins).ok_or(MeshRefusal::Lists)?;
        Ok(())
    }
}
