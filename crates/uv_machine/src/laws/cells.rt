//! Laws on the cells of objects.

ghost use Rattle.uv_machine.specs.ObjectLaws.{LivesCount, CellIsOne, LastLife, SpentIsLast, CellsGoRound, LiveCellIsOne};

/// The lives of a cell have the generations 0, 1, 2 ..
pub fn lives_count()
    ensures { LivesCount }
{}

/// A kind, an index and a generation name one object for ever.
pub fn cell_is_one()
    ensures { CellIsOne }
{}

/// The object that has a cell is the last that was made in it.
pub fn last_life()
    ensures { LastLife }
{}

/// A cell that is out, and that no object has, has had its last life.
pub fn spent_is_last()
    ensures { SpentIsLast }
{}

/// Cells go round: between two objects in one cell, each other cell of the kind that was home at the first
/// is given too.
pub fn cells_go_round()
    ensures { CellsGoRound }
{}

/// One object at most is made or live under a kind, an index and a generation.
pub fn live_cell_is_one()
    ensures { LiveCellIsOne }
{}
