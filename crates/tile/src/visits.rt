// One walk over a tile's sampled cells, for each pass.

ghost use Rattle.std.specs.Prelude.{◌≡◌, ℕ};
ghost use Rattle.store.specs.Store.{Store};
ghost use Rattle.store.specs.Program.{Prog, run};
ghost use Rattle.tile.specs.Geometry.{Geometry};
ghost use Rattle.tile.specs.Owner.{owns};
ghost use Rattle.tile.specs.Passes.{each_sample, has_left, has_right};
ghost use Rattle.tile.specs.Sampled.{IsSampled};
ghost use Rattle.tile.specs.Tiles.{geometry};

use super::Tile;

/// A sampled cell, with the columns of its block that are the tile's.
#[derive(Clone, Copy)]
pub struct SampledCell {
    /// The block's first column (sx).
    pub start: usize,
    /// The end of its columns, not included (xend).
    pub end: usize,
    /// The cell's row.
    pub y: usize,
    /// Its column.
    pub x: usize,
}

impl SampledCell {
    /// Has the block another sampled cell to the left?
    pub fn has_left(&self, t: &Tile) -> bool
        requires { IsSampled (geometry t.now) self.now }
        ensures { result ≡ has_left (geometry t.now) self.now.start self.now.x }
    {
        self.start + t.step <= self.x
    }

    /// And to the right?
    pub fn has_right(&self, t: &Tile) -> bool
        requires { IsSampled (geometry t.now) self.now }
        ensures { result ≡ has_right (geometry t.now) self.now.end self.now.x }
    {
        self.x + t.step < self.end
    }
}

/// A pass over the sampled cells of a tile: what it does at one of them to the lists `L` that it is
/// lent, a part of the store.
pub trait Pass<L> {
    /// A store with these lists.
    ghost stored: { Store → L → Store };
    /// The lists are long enough for a tile.
    ghost Held: { Geometry → L → Type 0 };
    /// The same lists are lent, as long as they were.
    ghost Same: { L → L → Type 0 };
    /// What the pass asks of the tile.
    ghost Fits: { Self → Geometry → Type 0 };
    /// Its program at a cell: the block's columns, then row and column.
    ghost program: { Self → Geometry → ℕ → ℕ → ℕ → ℕ → Prog };

    /// The work at one cell.
    fn visit(&self, part: &mut L, t: &Tile, at: SampledCell)
        requires fits { Fits self.now (geometry t.now) }
        requires sampled { IsSampled (geometry t.now) at }
        requires held { Held (geometry t.now) part.old }
        ensures same { Same part.new part.old }
        ensures stored { (s : Store) → stored s part.new
            ≡ run (owns (geometry t.now)) (program self.now (geometry t.now) at.start at.end at.y at.x) (stored s part.old) };

    ghost same: { (p : L) → Same p p };

    ghost same_after: { (p q r : L) → Same p q → Same q r → Same p r };

    ghost held_after: { (t : Geometry) (p q : L) → Same p q → Held t q → Held t p };
}

// `while`: tried by `step_by`, which is proved, but with it hole filling takes 1.07 to 1.18 times as long.
/// Each sampled cell of the tile, block by block of its columns.
pub fn walk<L, P: Pass<L>>(pass: &P, part: &mut L, t: &Tile)
    requires fits { P.Fits pass.now (geometry t.now) }
    requires held { P.Held (geometry t.now) part.old }
    ensures same { P.Same part.new part.old }
    ensures stored { (s : Store) → P.stored s part.new
        ≡ run (owns (geometry t.now)) (each_sample (geometry t.now) (P.program pass.now (geometry t.now))) (P.stored s part.old) }
{
    let mut start = t.left;
    while start < t.right {
        let end = t.right.min(start + t.block);
        let mut y = t.top;
        while y < t.bottom {
            let mut x = start;
            while x < end {
                pass.visit(part, t, SampledCell { start, end, y, x });
                x += t.step;
            }
            y += t.step;
        }
        start += t.block;
    }
}
