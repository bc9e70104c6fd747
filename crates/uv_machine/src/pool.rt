//! The cells of a kind. An object that is no husk has one of them to itself.

ghost use Rattle.std.specs.Prelude.{◌≡◌, ◌<◌, ◌==◌, ◌+◌, ◌%◌, position, take, drop, option_map, IfSome, length};
ghost use Rattle.uv_machine.specs.Cells.{is_home, first_of_two, home_index, buried, drawn, buried_at, generation_at};

use uv_num::{CELLS, Changes, MOST_GENERATION, change_at};

/// A cell.
#[derive(Clone, Copy, Debug, PartialEq)]
pub struct Cell {
    /// How often it was buried.
    pub generation: u32,
    /// Whether it may be given to a new object.
    pub home: bool,
}

/// The cells of a kind, over both devices.
#[derive(Clone, Copy, Debug, PartialEq)]
pub struct Pool {
    pub cells: [Cell; CELLS],
    /// The place at which the next choice begins.
    pub next: u32,
}

/// What becomes of a cell.
#[derive(Clone, Copy, Debug)]
pub(crate) enum CellChange {
    /// It goes to a new object.
    GoesOut,
    /// It is buried.
    Buries,
}

impl Cell {
    fn bury(&mut self)
        ensures { self.new ≡ buried self.old }
    {
        if self.generation >= MOST_GENERATION {
            return;
        }
        self.generation += 1;
        self.home = true;
    }
}

impl Changes<Cell> for CellChange {
    ghost use Rattle.uv_machine.specs.Cells.{cell_changed};

    ghost changed = { cell_changed };

    fn change(self, cell: &mut Cell) {
        match self {
            CellChange::GoesOut => cell.home = false,
            CellChange::Buries => cell.bury(),
        }
    }
}

/// What becomes of the cells of a kind.
#[derive(Clone, Copy, Debug)]
pub(crate) enum PoolChange {
    /// The cell at this index goes to a new object.
    Draws(u32),
    /// The cell at this index is buried.
    Buries(u32),
}

impl Changes<Pool> for PoolChange {
    ghost use Rattle.uv_machine.specs.Cells.{pool_changed};

    ghost changed = { pool_changed };

    fn change(self, pool: &mut Pool) {
        match self {
            PoolChange::Draws(index) => pool.draw(index),
            PoolChange::Buries(index) => pool.bury(index),
        }
    }
}

impl Pool {
    /// The cell that a new object gets, if one is home: the choice goes round from the place after the last one.
    pub fn home_index(&self) -> Option<u32>
        ensures index { result ≡ home_index self.now }
    {
        let next = self.next;
        match home_at_or_after(&self.cells, next) {
            Some(index) => Some(index),
            None => home_before(&self.cells, next),
        }
    }

    /// The cell at this index goes to a new object.
    fn draw(&mut self, index: u32)
        ensures { self.new ≡ drawn index self.old }
    {
        change_at(&mut self.cells, index as usize, CellChange::GoesOut);
        self.next = ((u64::from(index) + 1) % CELLS as u64) as u32;
    }

    /// The cell at this index is buried.
    fn bury(&mut self, index: u32)
        ensures { self.new ≡ buried_at index self.old }
    {
        change_at(&mut self.cells, index as usize, CellChange::Buries);
    }

    /// The generation of the cell at this index, 0 where there is none.
    pub fn generation(&self, index: u32) -> u32
        ensures { result ≡ generation_at index self.now }
    {
        match self.cells.get(index as usize) {
            None => 0,
            Some(cell) => cell.generation,
        }
    }
}

fn home_at_or_after(cells: &[Cell], next: u32) -> Option<u32>
    requires { length cells.now ≡ CELLS }
    ensures { result ≡ option_map (λ i. next + i) (position is_home (drop next cells.now)) }
{
    match home_behind(cells, next as usize) {
        None => None,
        Some(i) => Some((next as usize + i) as u32),
    }
}

fn home_before(cells: &[Cell], next: u32) -> Option<u32>
    requires { length cells.now ≡ CELLS }
    ensures { result ≡ position is_home (take next cells.now) }
{
    match home_among(cells, next as usize) {
        None => None,
        Some(i) => Some(i as u32),
    }
}

fn home_behind(cells: &[Cell], next: usize) -> Option<usize>
    ensures index { result ≡ position is_home (drop next cells.now) }
    ensures within { IfSome result (λ i. next + i < length cells.now) }
{
    cells.iter().skip(next).position(|cell| cell.home)
}

fn home_among(cells: &[Cell], count: usize) -> Option<usize>
    ensures index { result ≡ position is_home (take count cells.now) }
    ensures within { IfSome result (λ i. i < length cells.now) }
{
    cells.iter().take(count).position(|cell| cell.home)
}
