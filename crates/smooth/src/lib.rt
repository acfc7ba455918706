// Smoothing: smoothen of refmvs.rs.
#![tactic(auto)]

ghost use Rattle.std.specs.Prelude.{◌≡◌, true, ℕ, ◌+◌, ◌*◌, ◌%◌, ◌≤◌, ◌<◌, min};
ghost use Rattle.levels.specs.declared.Mv.{Mv};
ghost use Rattle.mv.specs.Sums.{smoothed_of, Fair};
ghost use Rattle.store.specs.Store.{Store, Kind, field_mvs};
ghost use Rattle.store.specs.Program.{run, snapshot};
ghost use Rattle.tile.specs.Layout.{field_at};
ghost use Rattle.tile.specs.Owner.{owns};
ghost use Rattle.tile.specs.Sound.{InTile};
ghost use Rattle.tile.specs.Sampled.{IsSampled};
ghost use Rattle.tile.specs.Tiles.{geometry};
ghost use Rattle.field.specs.Field.{added_if, around, smooth_block, smoothen};
ghost use Rattle.field.specs.Lent.{AreVectorsHeld, IsHeld, IsSameField, vector_in, stored};
ghost use Rattle.smooth.specs.Code.{InBlock, AreRows, mean_in};

use field::Field;
use levels::Mv;
use mv::Sum;
use tile::{SampledCell, Tile};

// A cell, where there is one, is added to a sum. Whether it is there stands beside its place, and no Option of it: of five calls each would make one, to be taken apart here.
fn add_if(field: &Field<'_>, there: bool, t: &Tile, y: usize, x: usize, s: Sum) -> Sum
    requires inside { there ≡ true → InTile (geometry t.now) y x }
    requires held { AreVectorsHeld (geometry t.now) field.now }
    requires fair { Fair s }
    requires few { s.n ≤ 4 }
    ensures sum { result ≡ added_if there (vector_in field.now (field_at (geometry t.now) y x)) s }
    ensures fair { Fair result }
    ensures one_more { result.n ≤ s.n + 1 }
{
    if !there {
        return s;
    }
    s.add(field.vector(t.field_at(y, x)))
}

// A cell and its neighbours of the block.
fn around_at(field: &Field<'_>, t: &Tile, at: SampledCell) -> Sum
    requires sampled { IsSampled (geometry t.now) at }
    requires held { AreVectorsHeld (geometry t.now) field.now }
    ensures sum { result ≡ around (geometry t.now) (vector_in field.now) at.start at.end at.y at.x }
    ensures fair { Fair result }
    ensures few { result.n ≤ 5 }
{
    let SampledCell { y, x, .. } = at;
    let s1 = add_if(field, true, t, y, x, Sum::NONE);
    let s2 = add_if(field, at.has_left(t), t, y, x.saturating_sub(t.step), s1);
    let s3 = add_if(field, at.has_right(t), t, y, x + t.step, s2);
    let s4 = add_if(field, t.has_above(y), t, y.saturating_sub(t.step), x, s3);
    add_if(field, t.has_below(y), t, y + t.step, x, s4)
}

// A block of the tile: its first column and the end of its columns, its first row, and how many sampled rows and columns it has.
#[derive(Clone, Copy)]
struct Block {
    start: usize,
    end: usize,
    top: usize,
    rows: usize,
    cols: usize,
}

// The means of a block's sampled cells go into rows of eight: cell (a, b) is element b of row a.
fn block_means(field: &Field<'_>, t: &Tile, block: Block, means: &mut [[Mv; 8]; 8])
    requires inside { InBlock (geometry t.now) block.start block.end block.top block.rows block.cols }
    requires held { AreVectorsHeld (geometry t.now) field.now }
    requires means { AreRows means.old }
    ensures { (a b : ℕ) → a < block.rows → b < block.cols → mean_in means.new a b
        ≡ smoothed_of (around (geometry t.now) (vector_in field.now) block.start block.end (block.top + a * t.now.step) (block.start + b * t.now.step)) }
{
    // Sampled rows and columns are counted: of their numbers both the cell and the place of its mean are made.
    for a in 0..block.rows {
        for b in 0..block.cols {
            let at = SampledCell {
                start: block.start,
                end: block.end,
                y: block.top + a * t.step,
                x: block.start + b * t.step,
            };
            means[a][b] = around_at(field, t, at).smoothed();
        }
    }
}

// The means go to the block's sampled cells, each with the distance.
fn put_means(field: &mut Field<'_>, means: &[[Mv; 8]; 8], t: &Tile, delta: i8, block: Block)
    requires inside { InBlock (geometry t.now) block.start block.end block.top block.rows block.cols }
    requires held { IsHeld (geometry t.now) field.old }
    ensures same_borrow { IsSameField field.new field.old }
    ensures stored { (was : Kind → ℕ → Mv) → ((a b : ℕ) → a < block.rows → b < block.cols → mean_in means.now a b
        ≡ smoothed_of (around (geometry t.now) (was field_mvs) block.start block.end (block.top + a * t.now.step) (block.start + b * t.now.step)))
        → (s : Store) → stored s field.new ≡ run (owns (geometry t.now)) (smooth_block (geometry t.now) delta block.start block.end block.top was) (stored s field.old) }
{
    // Counted as in `block_means`.
    for a in 0..block.rows {
        for b in 0..block.cols {
            let at = t.field_at(block.top + a * t.step, block.start + b * t.step);
            field.put(at, means[a][b], field::as_byte(delta));
        }
    }
}

// All means first, from the originals.
fn smooth_block(field: &mut Field<'_>, t: &Tile, delta: i8, start: usize, end: usize, top: usize)
    requires left { t.now.left ≤ start }
    requires right { start < t.now.right }
    requires first_column { start % t.now.block ≡ 0 }
    requires end { end ≡ min t.now.right (start + t.now.block) }
    requires top { t.now.top ≤ top }
    requires bottom { top < t.now.bottom }
    requires first_row { top % t.now.block ≡ 0 }
    requires held { IsHeld (geometry t.now) field.old }
    ensures same_borrow { IsSameField field.new field.old }
    ensures stored { (s : Store) → stored s field.new ≡ run (owns (geometry t.now)) (snapshot (smooth_block (geometry t.now) delta start end top)) (stored s field.old) }
{
    let block = Block {
        start,
        end,
        top,
        rows: t.count(top, t.bottom.min(top + t.block)),
        cols: t.count(start, end),
    };
    // Lent: an answer of 512 bytes is copied by `memcpy`, which the passes' archive for C then asks for from outside.
    let mut means = [[Mv::EMPTY; 8]; 8];
    block_means(field, t, block, &mut means);
    put_means(field, &means, t, delta, block);
}

/// Smooths block by block, each from its own originals: a sampled cell becomes the mean of itself
/// and its neighbours of the block.
#[tactic(auto, using(tile::proofs::Places::block_some))]
pub fn smoothen(field: &mut Field<'_>, t: &Tile, delta: i8)
    requires held { IsHeld (geometry t.now) field.old }
    ensures same_borrow { IsSameField field.new field.old }
    ensures stored { (s : Store) → stored s field.new ≡ run (owns (geometry t.now)) (smoothen (geometry t.now) delta) (stored s field.old) }
{
    // By their numbers: a block's first column and row say where it stands.
    for start in (t.left..t.right).step_by(t.block) {
        let end = t.right.min(start + t.block);
        for top in (t.top..t.bottom).step_by(t.block) {
            smooth_block(field, t, delta, start, end, top);
        }
    }
}
