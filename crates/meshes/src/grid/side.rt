// A side of a cell of a depth grid. Cell q has the half-edges 6q to 6q + 5: its sides 0 to 2 are those of its first
// triangle, 3 to 5 those of its second.
ghost use Rattle.std.specs.Prelude.{◌≡◌, ◌<◌, ◌≤◌};
ghost use Rattle.mesh.specs.Grid.{corner as corner_of, across as across_of};

// Side `side` of cell `cell`, by the numbers that the rules give them, where a row has `cells` cells.
#[derive(Clone, Copy)]
pub(super) struct Side {
    pub(super) cells: u32,
    pub(super) cell: u32,
    pub(super) side: u32,
    ghost some: { 0 < cells },
    ghost few: { cells ≤ 180 },
    ghost inside: { cell < 32400 },
    ghost six: { side < 6 },
}

impl Side {
    // Where the side starts.
    pub(super) fn corner(&self) -> u32
        ensures { result ≡ corner_of self.now.cells self.now.cell self.now.side }
    {
        let width = self.cells + 1;
        // The cell's own first corner; the one below it is a row of points on.
        let first = self.cell / self.cells * width + self.cell % self.cells;
        match self.side {
            0 => first,
            1 | 5 => first + 1,
            2 | 4 => first + width,
            _ => first + width + 1,
        }
    }

    // The half-edge across the side, as if all triangles were present and a cell lay below every cell.
    pub(super) fn across(&self) -> Option<u32>
        ensures { result ≡ across_of self.now.cells self.now.cell self.now.side }
    {
        let Side { cells, cell, side } = *self;
        match side {
            0 => (cell / cells != 0).then(|| 6 * (cell - cells) + 3),
            1 => Some(6 * cell + 4),
            2 => (cell % cells != 0).then(|| 6 * (cell - 1) + 5),
            3 => Some(6 * (cell + cells)),
            4 => Some(6 * cell + 1),
            _ => (cell % cells + 1 < cells).then(|| 6 * (cell + 1) + 2),
        }
    }
}
