// Where a saved vector lands, and whether the field takes it there.
#![tactic(auto)]

ghost use Rattle.std.specs.Prelude.{◌≡◌, false, cond, ℕ, ◌<◌, pos, neg_ℤ, nat_abs, get_or, IfSome};
ghost use Rattle.std.specs.Int.Signed.{lt_z};
ghost use Rattle.intops.specs.Bounds.{Within};
ghost use Rattle.mv.specs.Projection.{past_range, scale_mv};
ghost use Rattle.store.specs.Store.{byte_cell};
ghost use Rattle.tile.specs.Layout.{on_step, cells_of, moved};
ghost use Rattle.tile.specs.Tiles.{geometry};
ghost use Rattle.traj.specs.Traj.{clipped, turned};
ghost use Rattle.project.specs.Project.{ref2ref, ref2idx, right_side, takes, to_source, to_reference, near_source};
ghost use Rattle.landing.specs.Code.{slot_of, landing_of};

use intersect::Place;
use levels::Mv;
use tile::Tile;

mod entries;

pub use entries::{Entry, LinkedEntry};

impl<'a> Entry<'a> {
    /// How far the reference is from the source, as a reference byte has it.
    pub fn distance(&self) -> u8
        ensures { result ≡ nat_abs (ref2ref self.now.source.now self.now.reference) }
    {
        self.source.ref2ref[self.reference].unsigned_abs()
    }

    /// The slot that the reference is, where it is one.
    pub fn slot(&self) -> Option<usize>
        requires low { nat_abs (ref2idx self.now.source.now self.now.reference) < 7 }
        ensures slot { result ≡ slot_of (ref2idx self.now.source.now self.now.reference) }
        ensures low { IfSome result (λ n. n < 7) }
    {
        usize::try_from(self.source.ref2idx[self.reference]).ok()
    }

    /// Does the sign of the distance fit the source's direction?
    pub fn right_side(&self) -> bool
        ensures { result ≡ right_side self.now.source.now self.now.reference }
    {
        let d = self.source.ref2ref[self.reference];
        let dir = self.source.dir;
        (d != 0) & ((d < 0) == (dir != 0))
    }

    /// Does a field cell take a vector? Where it is empty, or has one from the target at another
    /// distance.
    pub fn takes(&self, old: Mv, was: u8) -> bool
        ensures { result ≡ takes self.now.source.now self.now.reference old (byte_cell was) }
    {
        let tgt = self.source.tgt;
        let idx = self.source.ref2idx[self.reference];
        let dist = self.distance();
        mv::is_empty(old) | ((tgt != -1) & (idx == tgt) & (was != dist))
    }

    /// The vector as a trajectory of the source's own slot (mv1).
    pub fn to_source(&self, v: Mv) -> Mv
        requires vector { past_range v ≡ false }
        requires factor { Within 507904 (get_or self.now.source.now.ref2sf0 self.now.reference (pos 0)) }
        ensures { result ≡ to_source self.now.source.now self.now.reference v }
    {
        scaled(v, -self.source.ref2sf0[self.reference])
    }

    /// The vector as the field has it: turned round where the reference is later than the source.
    pub fn turned(&self, v: Mv) -> Mv
        requires { past_range v ≡ false }
        ensures { result ≡ cond (lt_z (ref2ref self.now.source.now self.now.reference) (pos 0)) (turned v) v }
    {
        let d = self.source.ref2ref[self.reference];
        if d < 0 {
            return intersect::turned(v);
        }
        v
    }
}

impl<'a> LinkedEntry<'a> {
    /// The vector as a trajectory of the slot that the reference is (mv2).
    pub fn to_reference(&self, v: Mv) -> Mv
        requires { past_range v ≡ false }
        ensures { result ≡ to_reference self.now.entry.source.now self.now.entry.reference v }
    {
        scaled(v, self.entry.source.ref2sf1[self.entry.reference])
    }
}

/// A vector within a trajectory's bounds.
pub fn short(v: Mv) -> Mv
    ensures { result ≡ clipped 2047 v }
{
    let y = intops::iclip(v.y, -2047, 2047);
    let x = intops::iclip(v.x, -2047, 2047);
    Mv { y, x }
}

/// scale_mv of a saved vector by a source's factor: both are in range.
pub fn scaled(v: Mv, sf: i32) -> Mv
    requires vector { past_range v ≡ false }
    requires factor { Within 507904 sf }
    ensures { result ≡ (scale_mv v sf).vector }
{
    mv::scale_vector(v, sf, -65535, 65535)
}

// Does column x1 lie in the window of column x's block, not cut at the frame?
// Not one function with `near_col` of tile, as the line there says: that window is cut.
#[tactic(auto, using(tile::proofs::Places::start_low), unfolding(project::specs::Project::near_source))]
fn near_source(t: &Tile, x: usize, x1: usize) -> bool
    requires { x < t.now.wide }
    ensures { result ≡ near_source (geometry t.now) x x1 }
{
    let at = t.block_start(x);
    (at.saturating_sub(t.edge) <= x1) & (x1 < at + t.block + t.edge)
}

// How many cells a vector's component leads back.
fn back_cells(v: i32) -> i32
    ensures { result ≡ neg_ℤ (cells_of v) }
{
    -tile::cells_of(v)
}

/// The sampled row or column that a vector's component leads back to from `x`, also where the
/// vector doesn't land there. For callers with tests of their own.
// `landing` doesn't call it: it tests the row and the column before they are sampled too.
pub fn back_at(t: &Tile, x: usize, v: i32) -> usize
    requires low { x < 8192 }
    ensures { result ≡ on_step (geometry t.now) (moved x (neg_ℤ (cells_of v))) }
{
    t.on_step(tile::moved_by(x, back_cells(v)))
}

/// The sampled cell that a saved vector leads back to from `from`, if it lands there: in the
/// frame's rows and the tile's columns, `from` in the rows of that cell's block, the cell near it.
pub fn landing(t: &Tile, from: Place, w: Mv) -> Option<Place>
    requires row { from.y < t.now.bottom }
    requires column { from.x < t.now.wide }
    ensures { result ≡ landing_of (geometry t.now) from.y from.x w }
{
    let dy = back_cells(w.y);
    let dx = back_cells(w.x);
    let y1 = tile::moved_by(from.y, dy);
    let x1 = tile::moved_by(from.x, dx);
    let rows = tile::is_there(from.y, dy) & (y1 < t.high);
    let cols = rows & tile::is_there(from.x, dx) & (t.left <= x1) & (x1 < t.right);
    let y = t.on_step(y1);
    let x = t.on_step(x1);
    let lands = cols & t.same_rows(y, from.y) & near_source(t, from.x, x);
    lands.then_some(Place { y, x })
}
