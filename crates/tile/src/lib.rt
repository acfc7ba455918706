// The numbers of a load: how the store is laid out, and which tile is loaded.
#![tactic(auto)]

ghost use Rattle.std.specs.Prelude.{◌≡◌, ◌+◌, ◌-◌, ◌*◌, ◌/◌, ◌%◌, ◌≤◌, ◌<◌, ◌^◌};
ghost use Rattle.tile.specs.Layout.{row_cells, field_at, block_start, place, traj_at, map_at, on_step, near_col, same_rows, cells_of, there, moved};
ghost use Rattle.tile.specs.Owner.{own_block};
ghost use Rattle.tile.specs.Passes.{has_above, has_below};
ghost use Rattle.tile.specs.Tiles.{geometry};

mod numbers;
mod visits;

pub use numbers::Tile;
pub use visits::{Pass, SampledCell, walk};

impl Tile {
    /// The place of a field cell of the superblock row: its rows begin at the tile's, so none is
    /// divided.
    // Row and column, and no struct of both, here and in the passes of `holes`, `gaps`, `smooth` and `traj`: they work out one of them at the call, as
    // `y + 2` beside `x`. Where a place goes down through several functions it is a `Place`, of `intersect`.
    #[tactic(auto, using(crate::proofs::Places::field_is))]
    pub fn field_at(&self, y: usize, x: usize) -> usize
        requires from { self.now.top ≤ y }
        requires to { y < self.now.top + self.now.side }
        requires column { x < self.now.stride }
        ensures { result ≡ field_at (geometry self.now) y x }
    {
        self.offset + ((y - self.top) * self.stride + x)
    }

    /// Where the block begins; its side is a power of two that the compiler cannot know.
    #[tactic(auto, unfolding(crate::specs::Layout::block_start))]
    pub fn block_start(&self, y: usize) -> usize
        ensures { result ≡ block_start (geometry self.now) y }
    {
        if self.block == 8 {
            y / 8 * 8
        } else {
            y / 16 * 16
        }
    }

    /// Has the block another sampled row above?
    #[tactic(auto, using(crate::proofs::Places::start_low))]
    pub fn has_above(&self, y: usize) -> bool
        requires { y < self.now.bottom }
        ensures { result ≡ has_above (geometry self.now) y }
    {
        self.block_start(y) + self.step <= y
    }

    /// And below?
    #[tactic(auto, using(crate::proofs::Places::start_low))]
    pub fn has_below(&self, y: usize) -> bool
        requires { y < self.now.bottom }
        ensures { result ≡ has_below (geometry self.now) y }
    {
        let end = (self.block_start(y) + self.block).min(self.bottom);
        y + self.step < end
    }

    /// How many sampled rows or columns there are from `a` up to `b`.
    // By cases of the step here and in `on_step`, of the side in `row_of`, and no division by either: as for the blocks, the compiler cannot know what it is.
    pub fn count(&self, a: usize, b: usize) -> usize
        requires order { a ≤ b }
        requires low { b ≤ 16384 }
        ensures { result ≡ (b - a + (self.now.step - 1)) / self.now.step }
    {
        if self.step == 1 {
            b - a
        } else {
            (b - a + 1) / 2
        }
    }

    /// The number of the column's block. A side is a power of two that the compiler cannot know:
    /// divided by each that it can be.
    pub fn in_blocks(&self, x: usize) -> usize
        ensures { result ≡ x / self.now.block }
    {
        if self.block == 8 { x / 8 } else { x / 16 }
    }

    /// The row's number in its superblock row.
    pub fn row_of(&self, y: usize) -> usize
        ensures { result ≡ y % self.now.side }
    {
        match self.side {
            8 => y % 8,
            16 => y % 16,
            _ => y % 32,
        }
    }

    /// Down to a sampled row or column.
    #[tactic(auto, unfolding(crate::specs::Layout::on_step))]
    pub fn on_step(&self, x: usize) -> usize
        ensures { result ≡ on_step (geometry self.now) x }
    {
        if self.step == 1 { x } else { x / 2 * 2 }
    }

    /// The place of a cell in its superblock row.
    #[tactic(auto, unfolding(crate::specs::Layout::place))]
    pub fn place_at(&self, y: usize, x: usize) -> usize
        requires { x < self.now.stride }
        ensures { result ≡ place (geometry self.now) y x }
    {
        self.row_of(y) * self.stride + x
    }

    /// The place of a trajectory of slot `n`.
    pub fn traj_at(&self, n: usize, y: usize, x: usize) -> usize
        requires slot { n < 7 }
        requires column { x < self.now.stride }
        ensures { result ≡ traj_at (geometry self.now) n y x }
    {
        n * (self.side * self.stride) + self.place_at(y, x)
    }

    /// A map cell from its place in the superblock row, for a caller that looks up one place in
    /// several planes.
    // A plane is one of three, a number, as it is counted and moves the blocks.
    pub fn map_in(&self, k: usize, n: usize, at: usize) -> usize
        requires plane { k < 3 }
        requires slot { n < 7 }
        requires place { at < row_cells (geometry self.now) }
        ensures { result ≡ (k * 7 + n) * row_cells (geometry self.now) + at }
    {
        (k * 7 + n) * (self.side * self.stride) + at
    }

    /// The place of a map cell of slot `n` in plane `k`.
    #[tactic(auto, using(crate::proofs::Places::place_low), unfolding(crate::specs::Layout::map_at))]
    pub fn map_at(&self, k: usize, n: usize, y: usize, x: usize) -> usize
        requires plane { k < 3 }
        requires slot { n < 7 }
        requires column { x < self.now.stride }
        ensures { result ≡ map_at (geometry self.now) k n y x }
    {
        self.map_in(k, n, self.place_at(y, x))
    }

    /// Does column `b` lie in the window of column `a`'s block?
    // Not one function with `same_rows` and `near_source` of landing: the three windows differ in the edge and in where the frame cuts them,
    // so that of each a call would be left that hands over both, and is no shorter.
    #[tactic(auto, using(crate::proofs::Places::start_low), unfolding(crate::specs::Layout::near_col))]
    pub fn near_col(&self, a: usize, b: usize) -> bool
        requires { a < 2 ^ 40 }
        ensures { result ≡ near_col (geometry self.now) a b }
    {
        let start = self.block_start(a);
        let low = start.saturating_sub(self.edge);
        let end = (start + self.block + self.edge).min(self.wide);
        (low <= b) & (b < end)
    }

    /// Does row `b` lie in row `a`'s block?
    #[tactic(auto, using(crate::proofs::Places::start_low), unfolding(crate::specs::Layout::same_rows))]
    pub fn same_rows(&self, a: usize, b: usize) -> bool
        requires { a < 2 ^ 40 }
        ensures { result ≡ same_rows (geometry self.now) a b }
    {
        let start = self.block_start(a);
        let end = (start + self.block).min(self.high);
        (start <= b) & (b < end)
    }

    /// Is the block one of the tile's? Blocks count from 1 here, as the one before the first is
    /// asked for too.
    #[tactic(auto, unfolding(crate::specs::Owner::own_block))]
    pub fn own_block(&self, n: usize) -> bool
        ensures { result ≡ own_block (geometry self.now) n }
    {
        let first = self.in_blocks(self.left) + 1;
        let last = self.in_blocks(self.right - 1) + 1;
        (first <= n) & (n <= last)
    }
}

/// The whole cells of a vector's component, which is in 64ths of a cell.
pub fn cells_of(v: i32) -> i32
    ensures { result ≡ cells_of v }
{
    v / 64
}

/// Is there a row or column `d` cells on?
// Apart from `moved_by`, and no Option of both: callers join the tests of two components and of a window into one value, and an Option of
// each would be taken apart first. `end_at` of intersect and `back_at` of landing take the number where they do not ask for the test.
pub fn is_there(x: usize, d: i32) -> bool
    requires { x < 2 ^ 32 }
    ensures { result ≡ there x d }
{
    // `as`: no From of usize to i64 is there.
    x as i64 + i64::from(d) >= 0
}

/// The row or column `d` cells on, where there is one.
pub fn moved_by(x: usize, d: i32) -> usize
    requires { x < 2 ^ 32 }
    ensures { result ≡ moved x d }
{
    // `as`: no From of usize to i64 is there, nor of u64 to usize.
    let z = x as i64 + i64::from(d);
    z.unsigned_abs() as usize
}
