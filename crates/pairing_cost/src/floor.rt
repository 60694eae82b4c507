// Flat floors of square cells, each cell cut into two triangles.
ghost use Rattle.std.specs.Prelude.{◌≡◌, ◌<◌, ◌≤◌, IfOk};
ghost use Rattle.pairing_cost.specs.Floor.{cell_halves, corner_at, floor_points, floor_triangles};

use mesh::{Point, Triangle};
use std::alloc::{AllocError, Global};

// So many cells side by side, in so many rows.
#[derive(Clone, Copy)]
pub struct Floor {
    columns: u32,
    rows: u32,
    ghost narrow: { columns ≤ 256 },
    ghost short: { rows ≤ 256 },
}

impl Floor {
    pub const SMALL: Floor = Floor {
        columns: 25,
        rows: 20,
    };

    pub const MIDDLE: Floor = Floor {
        columns: 80,
        rows: 50,
    };

    pub const LARGE: Floor = Floor {
        columns: 256,
        rows: 128,
    };

    // A point at each corner of the cells, ten centimetres apart.
    pub fn points(self, heap: Global) -> Result<Vec<Point>, AllocError>
        ensures { IfOk result (λ points. points.items ≡ floor_points self.columns self.rows) }
    {
        (0..self.rows + 1)
            .flat_map(|r| (0..self.columns + 1).map(move |c| corner(c, r)))
            .collect(heap)
    }

    // The two triangles of each cell, row by row.
    pub fn triangles(self, heap: Global) -> Result<Vec<Triangle>, AllocError>
        ensures { IfOk result (λ triangles. triangles.items ≡ floor_triangles self.columns self.rows) }
    {
        let mut triangles = Vec::new(heap);
        let width = self.columns + 1;
        // A `for`: no list is proved of a `flat_map` whose closure gives an array.
        for r in 0..self.rows {
            for c in 0..self.columns {
                triangles.extend_from_slice(&halves(r * width + c, width))?;
            }
        }
        Ok(triangles)
    }
}

// The point where column `c` and row `r` of cells begin.
fn corner(c: u32, r: u32) -> Point
    requires column { c ≤ 256 }
    requires row { r ≤ 256 }
    ensures { result ≡ corner_at c r }
{
    Point {
        x: 10 * c as i32,
        y: 10 * r as i32,
        z: 0,
    }
}

// The two triangles of the cell whose first corner is point `a`, where each row has `width` points.
fn halves(a: u32, width: u32) -> [Triangle; 2]
    requires first { a < 70000 }
    requires width { width ≤ 257 }
    ensures { result ≡ cell_halves a width }
{
    [
        Triangle {
            a,
            b: a + 1,
            c: a + width,
        },
        Triangle {
            a: a + width + 1,
            b: a + width,
            c: a + 1,
        },
    ]
}
