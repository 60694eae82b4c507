// A mesh seen in a mirror: left and right change places, and the triangles still face the viewer.
ghost use Rattle.std.specs.Prelude.{◌≡◌, ◌≤◌, min, unsigned_abs};
ghost use Rattle.mesh.specs.Mirror.{mirror, flip as flip_of, opposite as opposite_of};
ghost use Rattle.mesh.proofs.MirrorRules.{mirror_lawful};

use mesh::{Mesh, Point, end_of};

// The mirror image of the mesh below.
#[derive(Drop)]
pub struct Mirrored<'a, M: Mesh> {
    below: &'a M,
}

impl<'a, M: Mesh> Mirrored<'a, M> {
    pub fn new(below: &'a M) -> Mirrored<'a, M>
        ensures { result.below.now ≡ below.now }
    {
        Mirrored { below }
    }
}

// 3t + k becomes 3t + 2 − k. The highest number is no half-edge of any mesh, and stays.
fn flip(h: u32) -> u32
    ensures { result ≡ min (flip_of h) 4294967295 }
{
    (3 * (h / 3)).saturating_add(2 - h % 3)
}

fn opposite(p: Point) -> Point
    requires { unsigned_abs p.x ≤ 10000 }
    ensures { result ≡ opposite_of p }
{
    Point { x: -p.x, ..p }
}

impl<'a, M: Mesh> Mesh for Mirrored<'a, M> {
    ghost meaning = { λ s. mirror (M.Mesh.meaning s.below.now) };

    ghost lawful = { λ s. mirror_lawful (M.Mesh.meaning s.below.now) (M.Mesh.lawful s.below.now) };

    fn triangles(&self) -> u32 {
        self.below.triangles()
    }

    fn points(&self) -> u32 {
        self.below.points()
    }

    fn present(&self, t: u32) -> bool {
        self.below.present(t)
    }

    #[tactic(auto, using(mesh::proofs::MirrorRules::end_capped))]
    fn start(&self, h: u32) -> u32 {
        end_of(self.below, flip(h))
    }

    fn place(&self, p: u32) -> Point {
        opposite(self.below.place(p))
    }

    #[tactic(auto, using(mesh::proofs::MirrorRules::twin_capped, mesh::proofs::Rules::twin_below))]
    fn twin(&self, h: u32) -> Option<u32> {
        self.below.twin(flip(h)).map(flip)
    }
}
