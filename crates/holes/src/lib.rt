// Hole filling: fill_holes of refmvs.rs.
#![tactic(auto)]

ghost use Rattle.std.specs.Prelude.{◌≡◌};
ghost use Rattle.store.specs.Store.{Store};
ghost use Rattle.store.specs.Program.{run};
ghost use Rattle.tile.specs.Owner.{owns};
ghost use Rattle.tile.specs.Sound.{InTile};
ghost use Rattle.tile.specs.Sampled.{IsSampled};
ghost use Rattle.tile.specs.Tiles.{geometry};
ghost use Rattle.field.specs.Field.{fill_hole, fill_around, fill_holes};
ghost use Rattle.field.specs.Lent.{IsHeld, IsSameField, stored};

use field::Field;
use levels::Mv;
use tile::{Pass, SampledCell, Tile, walk};

// v goes into a cell that is empty.
fn fill_hole(field: &mut Field<'_>, t: &Tile, delta: i8, v: Mv, y: usize, x: usize)
    requires inside { InTile (geometry t.now) y x }
    requires held { IsHeld (geometry t.now) field.old }
    ensures same_borrow { IsSameField field.new field.old }
    ensures stored { (s : Store) → stored s field.new ≡ run (owns (geometry t.now)) (fill_hole (geometry t.now) delta v y x) (stored s field.old) }
{
    let at = t.field_at(y, x);
    if field.cell(at).is_none() {
        field.put(at, v, field::as_byte(delta));
    }
}

// A cell that is not empty fills its empty neighbours of the block.
fn fill_around(field: &mut Field<'_>, t: &Tile, delta: i8, at: SampledCell)
    requires sampled { IsSampled (geometry t.now) at }
    requires held { IsHeld (geometry t.now) field.old }
    ensures same_borrow { IsSameField field.new field.old }
    ensures stored { (s : Store) → stored s field.new ≡ run (owns (geometry t.now)) (fill_around (geometry t.now) delta at.start at.end at.y at.x) (stored s field.old) }
{
    let Some(v) = field.cell(t.field_at(at.y, at.x)) else {
        return;
    };
    if at.has_left(t) {
        fill_hole(field, t, delta, v, at.y, at.x - t.step);
    }
    if at.has_right(t) {
        fill_hole(field, t, delta, v, at.y, at.x + t.step);
    }
    if t.has_above(at.y) {
        fill_hole(field, t, delta, v, at.y - t.step, at.x);
    }
    if t.has_below(at.y) {
        fill_hole(field, t, delta, v, at.y + t.step, at.x);
    }
}

// What fill_holes does at each sampled cell.
#[derive(Drop)]
struct HoleFilling {
    delta: i8,
}

impl<'a> Pass<Field<'a>> for HoleFilling {
    ghost use Rattle.std.proofs.Common.{rules};

    ghost stored = { stored };

    ghost Held = { IsHeld };

    ghost Same = { IsSameField };

    ghost Fits = { λ p t. Unit {0} };

    ghost program = { λ p t sx xend y x. fill_around t p.delta sx xend y x };

    ghost same = { Prim.search rules };

    ghost same_after = { Prim.search rules };

    ghost held_after = { Prim.search rules };

    fn visit(&self, field: &mut Field<'a>, t: &Tile, at: SampledCell) {
        fill_around(field, t, self.delta, at);
    }
}

/// Fills the holes of each block, in place: what one cell has filled, the next may hand on.
pub fn fill_holes(field: &mut Field<'_>, t: &Tile, delta: i8)
    requires held { IsHeld (geometry t.now) field.old }
    ensures same_borrow { IsSameField field.new field.old }
    ensures stored { (s : Store) → stored s field.new ≡ run (owns (geometry t.now)) (fill_holes (geometry t.now) delta) (stored s field.old) }
{
    walk(&HoleFilling { delta }, field, t);
}
