// What a depth grid replies.
ghost use Rattle.std.specs.Prelude.{◌≡◌, ◌-◌, ◌*◌, ◌/◌, ◌%◌, ◌<◌, ◌≤◌};
ghost use Rattle.mesh.specs.Grid.{at_place, read as is_read, grid_triangles};
ghost use Rattle.mesh.proofs.GridRules.{grid_lawful};
ghost use Rattle.meshes.specs.Views.{grid_of};

use super::DepthGrid;
use super::side::Side;
use mesh::{Mesh, Point, triangle_of};

// The place of a reading at a column and a row.
fn lifted(column: u32, row: u32, pitch: u32, reading: u16) -> Point
    requires columns { column * pitch ≤ 9900 }
    requires rows { row * pitch ≤ 9900 }
    ensures { result ≡ at_place (column * pitch) (row * pitch) reading }
{
    Point {
        x: (column * pitch) as i32,
        y: (row * pitch) as i32,
        z: i32::from(reading),
    }
}

impl DepthGrid<'_> {
    // The side that a half-edge is, of a triangle present or absent.
    fn side(&self, h: u32) -> Side
        requires { h < 3 * grid_triangles self.now.columns self.now.rows }
        ensures cells { result.cells ≡ self.now.columns - 1 }
        ensures cell { result.cell ≡ h / 6 }
        ensures side { result.side ≡ h % 6 }
    {
        Side {
            cells: self.columns - 1,
            cell: h / 6,
            side: h % 6,
        }
    }

    // Whether a point has a reading; by rule 0 is none.
    fn is_read(&self, p: u32) -> bool
        ensures { result ≡ is_read self.now.readings.now p }
    {
        self.readings
            .get(p as usize)
            .is_some_and(|&reading| reading != 0)
    }
}

impl<'a> Mesh for DepthGrid<'a> {
    ghost meaning = { λ s. grid_of s };

    ghost lawful = { λ s. grid_lawful s.columns s.rows s.pitch s.readings.now s.limits };

    fn triangles(&self) -> u32 {
        2 * ((self.columns - 1) * (self.rows - 1))
    }

    fn points(&self) -> u32 {
        self.columns * self.rows
    }

    #[tactic(auto, unfolding(mesh::specs::Grid::full))]
    fn present(&self, t: u32) -> bool {
        t < self.triangles() && (3 * t..3 * t + 3).all(|h| self.is_read(self.side(h).corner()))
    }

    fn start(&self, h: u32) -> u32 {
        if self.present(triangle_of(h)) {
            self.side(h).corner()
        } else {
            // By rule 0 where the triangle is absent.
            0
        }
    }

    fn place(&self, p: u32) -> Point {
        // Locals, since the proof does not close with a closure that reads them through `self`.
        let (column, row, pitch) = (p % self.columns, p / self.columns, self.pitch);
        self.readings.get(p as usize).map_or(
            Point::default(),
            |&reading| lifted(column, row, pitch, reading),
        )
    }

    fn twin(&self, h: u32) -> Option<u32> {
        if !self.present(triangle_of(h)) {
            return None;
        }
        // A guard and a `?`, since a closure for `filter` that asks `present` of the mesh itself tells the proof nothing.
        let g = self.side(h).across()?;
        self.present(triangle_of(g)).then_some(g)
    }
}
