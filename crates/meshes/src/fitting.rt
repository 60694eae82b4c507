// Points and triangles that keep the limits of a mesh and its rules of places and corners.
ghost use Rattle.std.specs.Prelude.{◌≡◌, ◌*◌, ◌≤◌, true, length, is_some, IfSome};
ghost use Rattle.std.specs.List.{list_all};
ghost use Rattle.mesh.specs.HalfEdges.{next as next_of};
ghost use Rattle.mesh.specs.Stored.{near as is_near, sound as is_sound, corner_of, stored_start, against as runs_against, set_fits, lists_fit};

use mesh::{ENTRY_LIMIT, Point, Triangle, in_limits, next, triangle_of};

// They are looked at once, when this is made, so that nothing that is done with them has to ask again. How
// many there are follows from `fits`, and is what the arithmetic needs.
#[derive(Clone, Copy)]
pub(crate) struct FittingSet<'a> {
    pub(crate) points: &'a [Point],
    pub(crate) triangles: &'a [Triangle],
    ghost fits: { set_fits points.now triangles.now ≡ true },
    ghost few_points: { length points.now ≤ 65536 },
    ghost few_triangles: { length triangles.now ≤ 65536 },
}

fn near(p: &Point) -> bool
    ensures { result ≡ is_near p.now }
{
    in_limits(p.x) && in_limits(p.y) && in_limits(p.z)
}

// Whether the corners are three different points of `points`.
fn sound(points: u32, t: &Triangle) -> bool
    ensures { result ≡ is_sound points t.now }
{
    t.a < points && t.b < points && t.c < points && t.a != t.b && t.b != t.c && t.c != t.a
}

fn all_near(points: &[Point]) -> bool
    ensures { result ≡ list_all is_near points.now }
{
    points.iter().all(near)
}

fn all_sound(points: u32, triangles: &[Triangle]) -> bool
    ensures { result ≡ list_all (is_sound points) triangles.now }
{
    triangles.iter().all(|t| sound(points, t))
}

#[tactic(auto, unfolding(mesh::specs::Stored::set_fits))]
fn fit(points: &[Point], triangles: &[Triangle]) -> bool
    ensures { result ≡ set_fits points.now triangles.now }
{
    points.len() <= ENTRY_LIMIT
        && triangles.len() <= ENTRY_LIMIT
        && all_near(points)
        && all_sound(points.len() as u32, triangles)
}

// Corner `k`, by the number that the rules give it.
fn corner(t: &Triangle, k: u32) -> u32
    ensures { result ≡ corner_of t.now k }
{
    match k {
        0 => t.a,
        1 => t.b,
        _ => t.c,
    }
}

impl<'a> FittingSet<'a> {
    // The set of these lists, if they fit and there is a place for each twin.
    #[tactic(auto, unfolding(mesh::specs::Stored::lists_fit))]
    pub(crate) fn new(
        points: &'a [Point],
        triangles: &'a [Triangle],
        twins: &[u32],
    ) -> Option<FittingSet<'a>>
        ensures fits { is_some result ≡ lists_fit points.now triangles.now twins.now }
        ensures points { IfSome result (λ set. set.points.now ≡ points.now) }
        ensures triangles { IfSome result (λ set. set.triangles.now ≡ triangles.now) }
        ensures places { IfSome result (λ set. length twins.now ≡ 3 * length set.triangles.now) }
    {
        // An `if`, since a closure for `then` would need clauses of its own for the ghost fields.
        if fit(points, triangles) && twins.len() == 3 * triangles.len() {
            Some(FittingSet { points, triangles })
        } else {
            None
        }
    }

    pub(crate) fn half_edges(&self) -> u32
        ensures { result ≡ 3 * length self.now.triangles.now }
    {
        3 * self.triangles.len() as u32
    }

    // The point where a half-edge starts; by rule 0 past the last triangle.
    #[tactic(auto, unfolding(mesh::specs::Stored::stored_start))]
    pub(crate) fn start(&self, h: u32) -> u32
        ensures { result ≡ stored_start self.now.triangles.now h }
    {
        self.triangles
            .get(triangle_of(h) as usize)
            .map_or(0, |t| corner(t, h % 3))
    }

    fn end(&self, h: u32) -> u32
        ensures { result ≡ stored_start self.now.triangles.now (next_of h) }
    {
        self.start(next(h))
    }

    // Whether half-edge `g` runs the other way between the points of `h`.
    pub(crate) fn against(&self, h: u32, g: u32) -> bool
        ensures { result ≡ runs_against (stored_start self.now.triangles.now) h g }
    {
        self.start(g) == self.end(h) && self.end(g) == self.start(h)
    }
}
