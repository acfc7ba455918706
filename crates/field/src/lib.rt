// The field that a load is lent: its cells, the copy of the rows above, emptying and tip_projection.
#![tactic(auto)]

ghost use Rattle.std.specs.Prelude.{◌≡◌, ◌+◌, ◌*◌, ◌≤◌, ◌<◌, length, pos};
ghost use Rattle.levels.specs.declared.Mv.{Mv};
ghost use Rattle.store.specs.Lent.{held, filled};
ghost use Rattle.store.specs.Store.{Store, field_mvs, field_refs, byte_cell, wr};
ghost use Rattle.store.specs.Program.{run};
ghost use Rattle.tile.specs.Layout.{row_cells};
ghost use Rattle.tile.specs.Owner.{owns};
ghost use Rattle.tile.specs.Sound.{InTile};
ghost use Rattle.tile.specs.Tiles.{geometry};
ghost use Rattle.field.specs.Copied.{copied};
ghost use Rattle.field.specs.Field.{as_byte, projected, copy_above, empty_field, project_tip, tip_projection};
ghost use Rattle.field.specs.Lent.{IsVectorWithin, IsWithin, IsHeld, IsSameField, vector_in, stored, with_vectors};

use levels::Mv;
use tile::{Pass, SampledCell, Tile, walk};

/// The field's lists as a load is lent them (rp_proj): a vector for each cell, and the distance
/// to its reference.
// No ghost field says that the lists are long enough for a tile: the type would carry the tile's numbers, and what one of several calls leaves would have to be rewritten along them before the next. So it is asked for (`IsHeld`).
// Field, trajectories and maps are passed as three parameters: a struct that holds them by value keeps at its return only the lists' lengths, one that holds references takes a lifetime for each of them and of their lists.
// For the same reason it is three lists, and no `Pairs` of the first two beside the third.
#[derive(Drop)]
pub struct Field<'a> {
    /// The vectors' y.
    pub y: &'a mut [i32],
    /// Their x.
    pub x: &'a mut [i32],
    /// The reference bytes.
    pub reference: &'a mut [u8],
}

impl<'a> Field<'a> {
    /// The vector at a place, which may be empty.
    pub fn vector(&self, at: usize) -> Mv
        requires { IsVectorWithin self.now at }
        ensures { result ≡ vector_in self.now at }
    {
        store::vector_at(self.y, self.x, at)
    }

    /// The vector at a place, none where it is empty.
    pub fn cell(&self, at: usize) -> Option<Mv>
        requires { IsVectorWithin self.now at }
        ensures { result ≡ held (vector_in self.now at) }
    {
        store::cell_at(self.y, self.x, at)
    }

    /// Writes a vector with its reference byte.
    pub fn put(&mut self, at: usize, v: Mv, r: u8)
        requires { IsWithin self.old at }
        ensures same_borrow { IsSameField self.new self.old }
        ensures stored { (s : Store) → stored s self.new ≡ wr (wr (stored s self.old) field_mvs at v) field_refs at (byte_cell r) }
    {
        self.y[at] = v.y;
        self.x[at] = v.x;
        self.reference[at] = r;
    }

    // Copies n cells with their reference bytes to a place before them.
    fn copy_cells(&mut self, from: usize, to: usize, n: usize)
        requires before { to + n ≤ from }
        requires y { from + n ≤ length self.old.y.now }
        requires x { from + n ≤ length self.old.x.now }
        requires reference { from + n ≤ length self.old.reference.now }
        ensures same_borrow { IsSameField self.new self.old }
        ensures y { self.new.y.now ≡ copied from to n self.old.y.now }
        ensures x { self.new.x.now ≡ copied from to n self.old.x.now }
        ensures reference { self.new.reference.now ≡ copied from to n self.old.reference.now }
    {
        self.y.copy_within(from..from + n, to);
        self.x.copy_within(from..from + n, to);
        self.reference.copy_within(from..from + n, to);
    }

    // Empties the vectors from place a up to b.
    fn empty_cells(&mut self, a: usize, b: usize)
        requires order { a ≤ b }
        requires y { b ≤ length self.old.y.now }
        requires x { b ≤ length self.old.x.now }
        ensures same_borrow { IsSameField self.new self.old }
        ensures y { self.new.y.now ≡ filled (pos 2097152) a b self.old.y.now }
        ensures x { self.new.x.now ≡ filled (pos 0) a b self.old.x.now }
        ensures reference { self.new.reference.now ≡ self.old.reference.now }
    {
        // Of a short row one loop over both lists: two `fill`s take up to four times as long there, of a long one they take less.
        if b - a <= 128 {
            for i in a..b {
                self.y[i] = levels::INVALID_MV;
                self.x[i] = 0;
            }
        } else {
            self.y[a..b].fill(levels::INVALID_MV);
            self.x[a..b].fill(0);
        }
    }
}

/// Empties the tile's cells. The reference bytes are left.
pub fn empty_field(field: &mut Field<'_>, t: &Tile)
    requires y { t.now.offset + row_cells (geometry t.now) ≤ length field.old.y.now }
    requires x { t.now.offset + row_cells (geometry t.now) ≤ length field.old.x.now }
    ensures same_borrow { IsSameField field.new field.old }
    ensures vectors { (s : Store) → with_vectors s field.new ≡ run (owns (geometry t.now)) (empty_field (geometry t.now)) (with_vectors s field.old) }
    ensures reference { field.new.reference.now ≡ field.old.reference.now }
    ensures stored { (s : Store) → stored s field.new ≡ run (owns (geometry t.now)) (empty_field (geometry t.now)) (stored s field.old) }
{
    // By its number: a row's place is made of it.
    for y in t.top..t.bottom {
        let row = t.field_at(y, 0);
        field.empty_cells(row + t.left, row + t.right);
    }
}

/// Row mode: the superblock row's last three rows, of the load before, go to the rows in front of
/// it.
pub fn copy_above(field: &mut Field<'_>, t: &Tile)
    requires row_mode { t.now.offset ≡ 3 * t.now.stride }
    requires held { IsHeld (geometry t.now) field.old }
    ensures same_borrow { IsSameField field.new field.old }
    ensures stored { (s : Store) → stored s field.new ≡ run (owns (geometry t.now)) (copy_above (geometry t.now)) (stored s field.old) }
{
    // Rows are counted: of their numbers both places are made.
    for r in 0..3 {
        let from = t.offset + ((t.side - 3 + r) * t.stride + t.left);
        field.copy_cells(from, r * t.stride + t.left, t.right - t.left);
    }
}

// A function of its own: passes of three crates cite its contract, an equation with the definition.
/// A signed byte kept in an unsigned one.
pub fn as_byte(d: i8) -> u8
    ensures { result ≡ as_byte d }
{
    d.cast_unsigned()
}

/// mv_projection with the passes' bounds.
pub fn project(num: i32, den: i32, v: Mv) -> Mv
    ensures { result ≡ projected num den v }
{
    let sf = mv::projection_factor(num, den);
    mv::scale_vector(v, sf, -2047, 2047)
}

// What tip_projection does at each sampled cell.
#[derive(Drop)]
struct TipProjection {
    delta: i8,
}

impl<'a> Pass<Field<'a>> for TipProjection {
    ghost use Rattle.std.proofs.Common.{rules};

    ghost stored = { stored };

    ghost Held = { IsHeld };

    ghost Same = { IsSameField };

    ghost Fits = { λ p t. Unit {0} };

    ghost program = { λ p t sx xend y x. project_tip t p.delta y x };

    ghost same = { Prim.search rules };

    ghost same_after = { Prim.search rules };

    ghost held_after = { Prim.search rules };

    fn visit(&self, field: &mut Field<'a>, t: &Tile, at: SampledCell) {
        project_tip(field, t, self.delta, at.y, at.x);
    }
}

fn project_tip(field: &mut Field<'_>, t: &Tile, delta: i8, y: usize, x: usize)
    requires inside { InTile (geometry t.now) y x }
    requires held { IsHeld (geometry t.now) field.old }
    ensures same_borrow { IsSameField field.new field.old }
    ensures stored { (s : Store) → stored s field.new ≡ run (owns (geometry t.now)) (project_tip (geometry t.now) delta y x) (stored s field.old) }
{
    let at = t.field_at(y, x);
    let Some(v) = field.cell(at) else {
        return;
    };
    let den = i32::from(field.reference[at]);
    let w = project(i32::from(delta), den, v);
    field.put(at, w, as_byte(delta));
}

/// Projects each sampled cell that is not empty to the TIP distance, which becomes its reference
/// byte.
pub fn tip_projection(field: &mut Field<'_>, t: &Tile, delta: i8)
    requires held { IsHeld (geometry t.now) field.old }
    ensures same_borrow { IsSameField field.new field.old }
    ensures stored { (s : Store) → stored s field.new ≡ run (owns (geometry t.now)) (tip_projection (geometry t.now) delta) (stored s field.old) }
{
    walk(&TipProjection { delta }, field, t);
}
