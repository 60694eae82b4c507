// Fills a twin list.
ghost use Rattle.std.specs.Prelude.{◌≡◌, ◌*◌, true, length, if◌then◌else◌, Ok, Err};
ghost use Rattle.mesh.specs.Stored.{stored_start, lists_fit};
ghost use Rattle.mesh.specs.Pairing.{free, suits as suits_in, mate as mate_in, pair_one, pair_below, pairing};
ghost use Rattle.meshes.specs.Refusals.{told};

use crate::fitting::FittingSet;
use crate::refusal::MeshRefusal;
use mesh::{NO_TWIN, Point, Triangle};

// Whether a half-edge is still without a twin.
fn is_free(twins: &[u32], h: u32) -> bool
    ensures { result ≡ free twins.now h }
{
    twins.get(h as usize) == Some(&NO_TWIN)
}

// The twin list is passed along: pairing lends it to write and a stored mesh to look at, so it is no part of the set.
impl FittingSet<'_> {
    // Whether half-edge `g` has no twin and runs the other way between the points of `h`.
    fn suits(&self, twins: &[u32], h: u32, g: u32) -> bool
        ensures { result ≡ suits_in (stored_start self.now.triangles.now) twins.now h g }
    {
        // Most half-edges fail the first test, so it comes first.
        self.against(h, g) && is_free(twins, g)
    }

    // The lowest-numbered half-edge that can be paired with `h`, once all lower ones have had their turn. Had one of
    // those been able to, it would have been paired with `h` then, so the hunt begins above `h`.
    fn mate(&self, twins: &[u32], h: u32) -> Option<u32>
        requires turns { twins.now ≡ pair_below (stored_start self.now.triangles.now) (3 * length self.now.triangles.now) h }
        requires free { free twins.now h ≡ true }
        ensures { result ≡ mate_in (stored_start self.now.triangles.now) twins.now h }
    {
        (h + 1..self.half_edges()).find(|&g| self.suits(twins, h, g))
    }

    // The turn of half-edge `h`, after those of all lower ones.
    #[tactic(auto, unfolding(mesh::specs::Pairing::pair_one))]
    fn pair_one(&self, twins: &mut [u32], h: u32)
        requires { twins.old ≡ pair_below (stored_start self.now.triangles.now) (3 * length self.now.triangles.now) h }
        ensures { twins.new ≡ pair_one (stored_start self.now.triangles.now) twins.old h }
    {
        if is_free(twins, h) {
            if let Some(g) = self.mate(twins, h) {
                twins[h as usize] = g;
                twins[g as usize] = h;
            }
        }
    }

    // All turns, in ascending order: a loop, since each turn changes the list that the next one reads.
    fn pair_all(&self, twins: &mut [u32])
        requires { length twins.old ≡ 3 * length self.now.triangles.now }
        ensures { twins.new ≡ pairing self.now.triangles.now }
    {
        twins.fill(NO_TWIN);
        for h in 0..self.half_edges() {
            self.pair_one(twins, h);
        }
    }
}

// Pairs the half-edges of these triangles: in ascending order, each that is still without a twin with the
// lowest-numbered one without that runs the other way between the same points. Refused, it changes nothing.
pub fn pair(points: &[Point], triangles: &[Triangle], twins: &mut [u32]) -> Result<(), MeshRefusal>
    ensures says { told result ≡ (if lists_fit points.now triangles.now twins.old then Ok tt else Err 10) }
    ensures pairs { twins.new ≡ (if lists_fit points.now triangles.now twins.old then pairing triangles.now else twins.old) }
{
    let set = FittingSet::new(points, triangles, twins).ok_or(MeshRefusal::Lists)?;
    set.pair_all(twins);
    Ok(())
}
