// Gap filling of the field: fill_gap_proj of refmvs.rs.
#![tactic(auto)]

ghost use Rattle.std.specs.Prelude.{◌≡◌, true, false, ◌+◌, ◌≤◌};
ghost use Rattle.levels.specs.declared.Mv.{Mv};
ghost use Rattle.mv.specs.Sums.{is_empty, no_sum, added, gap_of, Fair};
ghost use Rattle.store.specs.Store.{Store};
ghost use Rattle.store.specs.Program.{run};
ghost use Rattle.tile.specs.Layout.{field_at};
ghost use Rattle.tile.specs.Owner.{owns};
ghost use Rattle.tile.specs.Sound.{InTile, Gaps};
ghost use Rattle.tile.specs.Sampled.{IsSampled};
ghost use Rattle.tile.specs.Tiles.{geometry};
ghost use Rattle.field.specs.Field.{put_gaps_proj, gap_proj, fill_gap_proj};
ghost use Rattle.field.specs.Lent.{IsHeld, IsSameField, stored};
ghost use Rattle.gaps.specs.Code.{beside_of};

use field::Field;
use levels::Mv;
use mv::Sum;
use tile::{Pass, SampledCell, Tile, walk};

// A mean, and a sum for the mean of more cells.
#[derive(Clone, Copy)]
struct Around {
    mean: Mv,
    sum: Sum,
}

// A sampled neighbour, projected from its own distance to another's: its mean with v, and added to s. Where it is empty, or
// there is none, these are v and s themselves: chosen by the branch that is there for the projection.
// Not one with traj's `beside`, which hands on the vector that it reads, of other lists at another place: here it is projected, so that a mean without it comes by the same branch, and is not computed again.
// Whether it is there stands beside its place, and no Option of it: right and below are asked for together too, and the place between is no more than both steps.
fn beside(
    field: &Field<'_>,
    there: bool,
    t: &Tile,
    to: u8,
    y: usize,
    x: usize,
    v: Mv,
    s: Sum,
) -> Around
    requires inside { there ≡ true → InTile (geometry t.now) y x }
    requires held { IsHeld (geometry t.now) field.now }
    requires some { is_empty v ≡ false }
    requires fair { Fair s }
    requires few { s.n ≤ 3 }
    ensures mean { result.mean ≡ gap_of (added (beside_of there to (field_at (geometry t.now) y x) field.now) (added v no_sum)) }
    ensures sum { result.sum ≡ added (beside_of there to (field_at (geometry t.now) y x) field.now) s }
    ensures fair { Fair result.sum }
    ensures no_fewer { s.n ≤ result.sum.n }
    ensures one_more { result.sum.n ≤ s.n + 1 }
{
    if !there {
        return Around { mean: v, sum: s };
    }
    let at = t.field_at(y, x);
    let Some(w) = field.cell(at) else {
        return Around { mean: v, sum: s };
    };
    let den = i32::from(field.reference[at]);
    let a = field::project(i32::from(to), den, w);
    Around {
        mean: mv::gap_of_two(v, a),
        sum: s.add(a),
    }
}

// The cells to the right, below and between.
fn put_gaps_proj(
    field: &mut Field<'_>,
    t: &Tile,
    y: usize,
    x: usize,
    beside: Mv,
    below: Mv,
    between: Mv,
    r: u8,
)
    requires gaps { Gaps (geometry t.now) y x }
    requires held { IsHeld (geometry t.now) field.old }
    ensures same_borrow { IsSameField field.new field.old }
    ensures stored { (v a b c : Mv) → beside ≡ gap_of (added a (added v no_sum)) → below ≡ gap_of (added b (added v no_sum)) → between ≡ gap_of (added c (added b (added a (added v no_sum))))
        → (s : Store) → stored s field.new ≡ run (owns (geometry t.now)) (put_gaps_proj (geometry t.now) y x v r a b c) (stored s field.old) }
{
    field.put(t.field_at(y, x + 1), beside, r);
    field.put(t.field_at(y + 1, x), below, r);
    field.put(t.field_at(y + 1, x + 1), between, r);
}

fn gap_proj(field: &mut Field<'_>, t: &Tile, at: SampledCell)
    requires sampled { IsSampled (geometry t.now) at }
    requires held { IsHeld (geometry t.now) field.old }
    requires step { t.now.step ≡ 2 }
    ensures same_borrow { IsSameField field.new field.old }
    ensures stored { (s : Store) → stored s field.new ≡ run (owns (geometry t.now)) (gap_proj (geometry t.now) at.start at.end at.y at.x) (stored s field.old) }
{
    let SampledCell { y, x, .. } = at;
    let place = t.field_at(y, x);
    let Some(v) = field.cell(place) else {
        return;
    };
    let r = field.reference[place];
    let right = at.has_right(t);
    let below = t.has_below(y);
    let a = beside(field, right, t, r, y, x + 2, v, Sum::one(v));
    let b = beside(field, below, t, r, y + 2, x, v, a.sum);
    let c = beside(field, right & below, t, r, y + 2, x + 2, v, b.sum);
    put_gaps_proj(field, t, y, x, a.mean, b.mean, c.sum.gap_mean(), r);
}

// What fill_gap_proj does at each sampled cell.
#[derive(Drop)]
struct GapFilling;

impl<'a> Pass<Field<'a>> for GapFilling {
    ghost use Rattle.std.proofs.Common.{rules};

    ghost stored = { stored };

    ghost Held = { IsHeld };

    ghost Same = { IsSameField };

    ghost Fits = { λ p t. t.step ≡ 2 };

    ghost program = { λ p t sx xend y x. gap_proj t sx xend y x };

    ghost same = { Prim.search rules };

    ghost same_after = { Prim.search rules };

    ghost held_after = { Prim.search rules };

    fn visit(&self, field: &mut Field<'a>, t: &Tile, at: SampledCell) {
        gap_proj(field, t, at);
    }
}

/// With step 2: the cells between the sampled ones get the means of the sampled cells around them.
pub fn fill_gap_proj(field: &mut Field<'_>, t: &Tile)
    requires held { IsHeld (geometry t.now) field.old }
    requires step { t.now.step ≡ 2 }
    ensures same_borrow { IsSameField field.new field.old }
    ensures stored { (s : Store) → stored s field.new ≡ run (owns (geometry t.now)) (fill_gap_proj (geometry t.now)) (stored s field.old) }
{
    walk(&GapFilling, field, t);
}
