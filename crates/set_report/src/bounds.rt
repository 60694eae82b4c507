// The box that points fill.
ghost use Rattle.std.specs.Prelude.{◌≡◌, Some};
ghost use Rattle.set_report.specs.Bounds.{widened, bounds_of, Smallest};
ghost use Rattle.set_report.specs.Texts.{box_text};

use mesh::Point;
use std::fmt;

// A box with sides along the axes, by its two extreme corners; both belong to it.
#[derive(Clone, Copy, Debug, PartialEq, Eq)]
pub struct BoundingBox {
    pub low: Point,
    pub high: Point,
}

// The point whose coordinates `pick` makes of those of two points, axis by axis.
fn by_axis<F: Fn(i32, i32) -> i32>(a: Point, b: Point, pick: F) -> Point
    requires { F.IsAlwaysCallable pick }
    ensures x { F.post pick a.x b.x result.x }
    ensures y { F.post pick a.y b.y result.y }
    ensures z { F.post pick a.z b.z result.z }
{
    Point {
        x: pick(a.x, b.x),
        y: pick(a.y, b.y),
        z: pick(a.z, b.z),
    }
}

impl BoundingBox {
    // The box with one point more.
    fn widened(self, p: Point) -> BoundingBox
        ensures { result ≡ widened self p }
    {
        BoundingBox {
            low: by_axis(self.low, p, i32::min),
            high: by_axis(self.high, p, i32::max),
        }
    }
}

// The three sides, in centimetres.
impl fmt::Display for BoundingBox {
    ghost output = { λ bounds. Some (box_text bounds) };

    fn fmt<W: fmt::Write>(&self, f: &mut fmt::Formatter<W>) -> fmt::Result {
        let BoundingBox { low, high } = *self;
        write!(
            f,
            "x {} to {}, y {} to {}, z {} to {}",
            low.x, high.x, low.y, high.y, low.z, high.z
        )
    }
}

// The smallest box that holds all the points; none where there is no point.
pub fn bounding_box(points: &[Point]) -> Option<BoundingBox>
    ensures { result ≡ bounds_of points.now }
{
    let first = *points.first()?;
    let start = BoundingBox {
        low: first,
        high: first,
    };
    Some(points.iter().copied().fold(start, BoundingBox::widened))
}

// The box holds every point, and every box that does so holds it.
pub fn bounds_law()
    ensures { Smallest }
{}
