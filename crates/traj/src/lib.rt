// The trajectories of a load: emptying them with their maps, and gap filling.
#![tactic(auto)]

ghost use Rattle.std.specs.Prelude.{◌≡◌, true, false, ◌+◌, ◌*◌, ◌≤◌, ◌<◌, length};
ghost use Rattle.mv.specs.Sums.{is_empty};
ghost use Rattle.store.specs.Lent.{IsSamePairs, with_trajs, stored_trajs};
ghost use Rattle.store.specs.Store.{Store};
ghost use Rattle.store.specs.Program.{run};
ghost use Rattle.tile.specs.Layout.{row_cells, place, traj_at};
ghost use Rattle.tile.specs.Lent.{IsTrajHeld, IsMapHeld};
ghost use Rattle.tile.specs.Owner.{owns};
ghost use Rattle.tile.specs.Sampled.{IsSampled};
ghost use Rattle.tile.specs.Sound.{InTile, Gaps};
ghost use Rattle.tile.specs.Tiles.{geometry};
ghost use Rattle.traj.specs.Traj.{empty_trajs, put_gaps_traj, gap_traj, fill_gap_traj};
ghost use Rattle.traj.specs.Code.{rows_filled, map_from, map_to, cell_or};

use levels::{Mv, QMv};
use store::Pairs;
use tile::{Pass, SampledCell, Tile, walk};

// Column 0 of a row of the superblock row, in plane p: trajectories have a plane for each slot,
// maps seven times three.
fn row_at(t: &Tile, p: usize, y: usize) -> usize
    requires plane { p < 21 }
    requires top { t.now.top ≤ y }
    requires bottom { y < t.now.top + t.now.side }
    ensures { result ≡ p * row_cells (geometry t.now) + place (geometry t.now) y 0 }
{
    p * (t.side * t.stride) + (y - t.top) * t.stride
}

// One vector in the columns from a up to b of the tile's rows, in plane p.
fn fill_rows<T: Copy>(cells: &mut Pairs<'_, T>, t: &Tile, p: usize, a: usize, b: usize, y: T, x: T)
    requires plane { p < 21 }
    requires order { a ≤ b }
    requires columns { b ≤ t.now.stride }
    requires y { (p + 1) * row_cells (geometry t.now) ≤ length cells.old.y.now }
    requires x { (p + 1) * row_cells (geometry t.now) ≤ length cells.old.x.now }
    ensures same_borrow { IsSamePairs cells.new cells.old }
    ensures y { cells.new.y.now ≡ rows_filled (geometry t.now) p a b y cells.old.y.now }
    ensures x { cells.new.x.now ≡ rows_filled (geometry t.now) p a b x cells.old.x.now }
{
    // By its number: a row's place is found of it, and the tile's rows are no slice.
    for row in t.top..t.bottom {
        let start = row_at(t, p, row);
        cells.fill(start + a, start + b, y, x);
    }
}

// In plane k the columns of the tile's blocks stand k - 1 blocks to the left: from here ..
fn map_from(t: &Tile, k: usize) -> usize
    requires { k < 3 }
    ensures { result ≡ map_from (geometry t.now) k }
{
    (t.left + t.block).saturating_sub(k * t.block)
}

// .. up to here, cut at the frame.
fn map_to(t: &Tile, k: usize) -> usize
    requires { k < 3 }
    ensures { result ≡ map_to (geometry t.now) k }
{
    let end = t.block_start(t.right + (t.block - 1)) + t.block;
    t.wide.min(end.saturating_sub(k * t.block))
}

/// Empties all slots' trajectories, and their maps in the three planes.
pub fn empty_trajs(trajectories: &mut Pairs<'_, i32>, maps: &mut Pairs<'_, i8>, t: &Tile)
    requires trajectories { IsTrajHeld (geometry t.now) trajectories.old }
    requires maps { IsMapHeld (geometry t.now) maps.old }
    ensures same_trajectories { IsSamePairs trajectories.new trajectories.old }
    ensures same_maps { IsSamePairs maps.new maps.old }
    ensures stored { (s : Store) → stored_trajs s trajectories.new maps.new
        ≡ run (owns (geometry t.now)) (empty_trajs (geometry t.now)) (stored_trajs s trajectories.old maps.old) }
{
    // Slots and planes by their numbers: a place is found of them, and all stand in the same lists.
    for n in 0..7 {
        fill_rows(trajectories, t, n, t.left, t.right, levels::INVALID_MV, 0);
        for k in 0..3 {
            let to = map_to(t, k);
            let from = map_from(t, k).min(to);
            fill_rows(maps, t, k * 7 + n, from, to, QMv::MARK.y, QMv::MARK.x);
        }
    }
}

// The place of a trajectory of the superblock row. Not `traj_at` of tile, which takes any row and divides it: here the row is the tile's.
fn traj_in(t: &Tile, n: usize, y: usize, x: usize) -> usize
    requires slot { n < 7 }
    requires top { t.now.top ≤ y }
    requires bottom { y < t.now.top + t.now.side }
    requires column { x < t.now.stride }
    ensures { result ≡ traj_at (geometry t.now) n y x }
{
    row_at(t, n, y) + x
}

// A sampled neighbour; empty where there is none. Not one with `beside` of `gaps`, which projects a
// field cell and answers its mean with another and its sum: the two share no more than the test.
// No Option, of the place or of the vector: right and below are asked for together too, and the means take an empty vector for none.
fn beside(there: bool, trajectories: &Pairs<'_, i32>, t: &Tile, n: usize, y: usize, x: usize) -> Mv
    requires slot { n < 7 }
    requires inside { there ≡ true → InTile (geometry t.now) y x }
    requires held { IsTrajHeld (geometry t.now) trajectories.now }
    ensures { result ≡ cell_or there trajectories.now (traj_at (geometry t.now) n y x) }
{
    if there {
        trajectories.vector(traj_in(t, n, y, x))
    } else {
        Mv::EMPTY
    }
}

// The cells to the right, below and between get the means of the sampled cells around them.
// Not one with put_gaps_proj of `gaps`, which stores means that its caller has found, each with a
// reference, in the field.
fn put_gaps_traj(
    trajectories: &mut Pairs<'_, i32>,
    t: &Tile,
    n: usize,
    y: usize,
    x: usize,
    v: Mv,
    a: Mv,
    b: Mv,
    c: Mv,
)
    requires slot { n < 7 }
    requires gaps { Gaps (geometry t.now) y x }
    requires held { IsTrajHeld (geometry t.now) trajectories.old }
    requires some { is_empty v ≡ false }
    ensures same_borrow { IsSamePairs trajectories.new trajectories.old }
    ensures stored { (s : Store) → with_trajs s trajectories.new
        ≡ run (owns (geometry t.now)) (put_gaps_traj (geometry t.now) n y x v a b c) (with_trajs s trajectories.old) }
{
    let beside = mv::gap_of_two(v, a);
    let below = mv::gap_of_two(v, b);
    let between = mv::gap_of_four(v, a, b, c);
    trajectories.put_vector(traj_in(t, n, y, x + 1), beside);
    trajectories.put_vector(traj_in(t, n, y + 1, x), below);
    trajectories.put_vector(traj_in(t, n, y + 1, x + 1), between);
}

// What fill_gap_traj does at a sampled cell.
fn gap_traj(trajectories: &mut Pairs<'_, i32>, t: &Tile, n: usize, at: SampledCell)
    requires slot { n < 7 }
    requires sampled { IsSampled (geometry t.now) at }
    requires held { IsTrajHeld (geometry t.now) trajectories.old }
    requires step { t.now.step ≡ 2 }
    ensures same_borrow { IsSamePairs trajectories.new trajectories.old }
    ensures stored { (s : Store) → with_trajs s trajectories.new
        ≡ run (owns (geometry t.now)) (gap_traj (geometry t.now) n at.start at.end at.y at.x) (with_trajs s trajectories.old) }
{
    let SampledCell { y, x, .. } = at;
    let Some(v) = trajectories.cell(traj_in(t, n, y, x)) else {
        return;
    };
    let right = at.has_right(t);
    let below = t.has_below(y);
    let a = beside(right, trajectories, t, n, y, x + 2);
    let b = beside(below, trajectories, t, n, y + 2, x);
    let c = beside(right & below, trajectories, t, n, y + 2, x + 2);
    put_gaps_traj(trajectories, t, n, y, x, v, a, b, c);
}

#[derive(Drop)]
struct GapFilling {
    slot: usize,
}

impl<'a> Pass<Pairs<'a, i32>> for GapFilling {
    ghost use Rattle.std.proofs.Common.{rules};

    ghost stored = { with_trajs };

    ghost Held = { IsTrajHeld };

    ghost Same = { IsSamePairs };

    ghost Fits = { λ p t. (p.slot < 7) × (t.step ≡ 2) };

    ghost program = { λ p t sx xend y x. gap_traj t p.slot sx xend y x };

    ghost same = { Prim.search rules };

    ghost same_after = { Prim.search rules };

    ghost held_after = { Prim.search rules };

    fn visit(&self, trajectories: &mut Pairs<'a, i32>, t: &Tile, at: SampledCell) {
        gap_traj(trajectories, t, self.slot, at);
    }
}

/// With step 2 the cells between the sampled ones of slot `n` get the means of those around them.
pub fn fill_gap_traj(trajectories: &mut Pairs<'_, i32>, t: &Tile, n: usize)
    requires slot { n < 7 }
    requires held { IsTrajHeld (geometry t.now) trajectories.old }
    requires step { t.now.step ≡ 2 }
    ensures same_borrow { IsSamePairs trajectories.new trajectories.old }
    ensures stored { (s : Store) → with_trajs s trajectories.new
        ≡ run (owns (geometry t.now)) (fill_gap_traj (geometry t.now) n) (with_trajs s trajectories.old) }
{
    walk(&GapFilling { slot: n }, trajectories, t);
}
