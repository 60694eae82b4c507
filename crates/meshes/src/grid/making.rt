// A depth grid is made by filling one that the caller holds, by rule; so `fill` and `new` take all that a grid has.
ghost use Rattle.std.specs.Prelude.{◌≡◌, false, [], ◌∷◌, if◌then◌else◌, is_some, IfSome, Ok, Err};
ghost use Rattle.std.specs.List.{list_all};
ghost use Rattle.mesh.specs.Grid.{grid, grid_fits, small};
ghost use Rattle.meshes.specs.Refusals.{told};
ghost use Rattle.meshes.specs.Views.{grid_of};

use super::DepthGrid;
use crate::refusal::MeshRefusal;

// The highest reading.
const READING_LIMIT: u16 = 10_000;

fn all_small(readings: &[u16]) -> bool
    ensures { result ≡ list_all small readings.now }
{
    readings.iter().all(|&x| x <= READING_LIMIT)
}

#[tactic(auto, unfolding(mesh::specs::Grid::grid_fits))]
fn fits(columns: u32, rows: u32, pitch: u32, readings: &[u16]) -> bool
    ensures { result ≡ grid_fits columns rows pitch readings.now }
{
    (2..=181).contains(&columns)
        && (2..=181).contains(&rows)
        && (1..=55).contains(&pitch)
        && readings.len() == (columns * rows) as usize
        && all_small(readings)
}

impl<'a> DepthGrid<'a> {
    // One to fill: two rows of two missing readings.
    #[tactic(auto, unfolding(mesh::specs::Grid::grid_fits))]
    pub fn empty() -> DepthGrid<'a>
        ensures { grid_of result ≡ grid 2 2 1 (0 ∷ 0 ∷ 0 ∷ 0 ∷ []) }
    {
        DepthGrid {
            columns: 2,
            rows: 2,
            pitch: 1,
            readings: &[0, 0, 0, 0],
        }
    }

    // The grid of these readings, if all is in limits.
    #[tactic(auto, using(mesh::proofs::GridRules::limits))]
    fn new(columns: u32, rows: u32, pitch: u32, readings: &'a [u16]) -> Option<DepthGrid<'a>>
        ensures fits { is_some result ≡ grid_fits columns rows pitch readings.now }
        ensures means { IfSome result (λ mesh. grid_of mesh ≡ grid columns rows pitch readings.now) }
    {
        // An `if`, since a closure for `then` would need clauses of its own for the ghost fields.
        if fits(columns, rows, pitch, readings) {
            Some(DepthGrid {
                columns,
                rows,
                pitch,
                readings,
            })
        } else {
            None
        }
    }

    // Becomes the grid of these readings if all is in limits, and else stays what it was.
    pub fn fill(
        &mut self,
        columns: u32,
        rows: u32,
        pitch: u32,
        readings: &'a [u16],
    ) -> Result<(), MeshRefusal>
        ensures says { told result ≡ (if grid_fits columns rows pitch readings.now then Ok tt else Err 9) }
        ensures means { grid_of self.new ≡ (if grid_fits columns rows pitch readings.now then grid columns rows pitch readings.now else grid_of self.old) }
        ensures kept { grid_fits columns rows pitch readings.now ≡ false → self.new ≡ self.old }
    {
        *self = DepthGrid::new(columns, rows, pitch, readings).ok_or(MeshRefusal::Grid)?;
        Ok(())
    }
}
