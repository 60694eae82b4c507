// A mesh over depth readings.
mod making;
pub mod replies;
mod side;

ghost use Rattle.std.specs.Prelude.{◌≡◌, true};
ghost use Rattle.mesh.specs.Grid.{grid_fits, Limits};

// The settings and the readings are in limits, so the mesh over them keeps the rules; `limits` says what follows.
#[derive(Drop)]
pub struct DepthGrid<'a> {
    columns: u32,
    rows: u32,
    pitch: u32,
    readings: &'a [u16],
    ghost fitting: { grid_fits columns rows pitch readings.now ≡ true },
    ghost limits: { Limits columns rows pitch readings.now },
}
