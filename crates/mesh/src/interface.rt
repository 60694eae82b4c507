// The interface of every mesh.
ghost use Rattle.std.specs.Prelude.{◌≡◌};
ghost use Rattle.mesh.specs.Model.{MeshModel, Lawful};

use crate::Point;

// Every question may be asked about every number, and what it replies depends on the mesh alone.
pub trait Mesh {
    // All replies together.
    ghost meaning: { Self → MeshModel };

    // They keep the limits and the rules.
    ghost lawful: { (m : Self) → Lawful (meaning m) };

    // How many triangles there are.
    fn triangles(&self) -> u32
        ensures { result ≡ (meaning self.now).triangles };

    // How many points there are.
    fn points(&self) -> u32
        ensures { result ≡ (meaning self.now).points };

    // Whether a triangle is present.
    fn present(&self, t: u32) -> bool
        ensures { result ≡ (meaning self.now).present t };

    // The point where a half-edge starts; by rule 0 where its triangle is absent.
    fn start(&self, h: u32) -> u32
        ensures { result ≡ (meaning self.now).start h };

    // Where a point lies; by rule the origin for a point that the mesh has not.
    fn place(&self, p: u32) -> Point
        ensures { result ≡ (meaning self.now).place p };

    // The twin of a half-edge, if it has one.
    fn twin(&self, h: u32) -> Option<u32>
        ensures { result ≡ (meaning self.now).twin h };
}
