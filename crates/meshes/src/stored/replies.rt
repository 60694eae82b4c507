// What a stored mesh replies.
ghost use Rattle.mesh.proofs.StoredRules.{stored_lawful};
ghost use Rattle.meshes.specs.Views.{stored_of};

use super::StoredMesh;
use mesh::{Mesh, NO_TWIN, Point};

impl<'a> Mesh for StoredMesh<'a> {
    ghost meaning = { λ s. stored_of s };

    ghost lawful = { λ s. stored_lawful s.set.points.now s.set.triangles.now s.twins.now s.fitting };

    fn triangles(&self) -> u32 {
        self.set.triangles.len() as u32
    }

    fn points(&self) -> u32 {
        self.set.points.len() as u32
    }

    fn present(&self, t: u32) -> bool {
        (t as usize) < self.set.triangles.len()
    }

    fn start(&self, h: u32) -> u32 {
        self.set.start(h)
    }

    fn place(&self, p: u32) -> Point {
        // By rule the origin past the last point.
        self.set.points.get(p as usize).copied().unwrap_or_default()
    }

    fn twin(&self, h: u32) -> Option<u32> {
        self.twins
            .get(h as usize)
            .copied()
            .filter(|&g| g != NO_TWIN)
    }
}
