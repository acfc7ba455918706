// What a vector leaves where it lands: a field cell, trajectories, their ends in the maps.
#![tactic(auto)]

ghost use Rattle.std.specs.Prelude.{◌≡◌, true, false, ℕ, ◌+◌, ◌/◌, ◌<◌};
ghost use Rattle.entry.specs.declared.Source.{Source};
ghost use Rattle.mv.specs.Projection.{past_range};
ghost use Rattle.store.specs.Lent.{IsSamePairs, with_trajs, stored_trajs};
ghost use Rattle.store.specs.Store.{Store, trajs};
ghost use Rattle.store.specs.Program.{run, write};
ghost use Rattle.tile.specs.Layout.{traj_at};
ghost use Rattle.tile.specs.Lent.{IsTrajHeld, IsMapHeld};
ghost use Rattle.tile.specs.Owner.{own_block, owns};
ghost use Rattle.tile.specs.Tiles.{geometry};
ghost use Rattle.field.specs.Lent.{IsHeld, IsSameField, store_of};
ghost use Rattle.traj.specs.Traj.{clipped};
ghost use Rattle.project.specs.Project.{to_source, put_trajs, put_mv};
ghost use Rattle.landing.specs.Code.{Landing};
ghost use Rattle.landing.specs.Entries.{SaysSame};

use field::Field;
use intersect::Place;
use landing::LinkedEntry;
use levels::Mv;
use store::Pairs;
use tile::Tile;

// A trajectory of slot n, within its bounds.
fn put_traj(trajectories: &mut Pairs<'_, i32>, t: &Tile, n: usize, to: Place, v: Mv)
    requires slot { n < 7 }
    requires own { own_block (geometry t.now) (to.x / t.now.block + 1) ≡ true }
    requires held { IsTrajHeld (geometry t.now) trajectories.old }
    ensures same_borrow { IsSamePairs trajectories.new trajectories.old }
    ensures stored { (s : Store) → with_trajs s trajectories.new
        ≡ run (owns (geometry t.now)) (write trajs (traj_at (geometry t.now) n to.y to.x) (clipped 2047 v)) (with_trajs s trajectories.old) }
{
    let at = t.traj_at(n, to.y, to.x);
    trajectories.put_vector(at, landing::short(v));
}

// A vector that landed leaves the trajectory of the source's slot, `w`, and that of its
// reference's, with their ends.
fn put_trajs(
    trajectories: &mut Pairs<'_, i32>,
    maps: &mut Pairs<'_, i8>,
    t: &Tile,
    e: &LinkedEntry<'_>,
    from: Place,
    to: Place,
    v: Mv,
    w: Mv,
)
    requires landing { Landing (geometry t.now) from.y from.x to.y to.x }
    requires vector { past_range v ≡ false }
    requires trajectories { IsTrajHeld (geometry t.now) trajectories.old }
    requires maps { IsMapHeld (geometry t.now) maps.old }
    ensures same_trajectories { IsSamePairs trajectories.new trajectories.old }
    ensures same_maps { IsSamePairs maps.new maps.old }
    ensures stored { w ≡ to_source e.now.entry.source.now e.now.entry.reference v → (s : Store) → stored_trajs s trajectories.new maps.new
        ≡ run (owns (geometry t.now)) (put_trajs (geometry t.now) e.now.entry.source.now e.now.entry.reference v from.y from.x to.y to.x) (stored_trajs s trajectories.old maps.old) }
{
    let n = e.entry.source.reference.index();
    put_traj(trajectories, t, n, to, w);
    intersect::enter_place(maps, t, n, to, from);
    let Some(m) = e.entry.slot() else {
        return;
    };
    put_traj(trajectories, t, m, to, e.to_reference(v));
    intersect::enter_end(maps, t, m, to, from, v);
}

/// A vector saved at `from` that landed at `to` goes there where the cell takes it, with its
/// trajectories where they are on. `w` is the vector as a trajectory of the source's own slot, which
/// the caller has found the landing by. What else the source says, of the frame and of other
/// references, is not read.
pub fn put_mv(
    field: &mut Field<'_>,
    trajectories: &mut Pairs<'_, i32>,
    maps: &mut Pairs<'_, i8>,
    t: &Tile,
    traj: bool,
    e: &LinkedEntry<'_>,
    from: Place,
    to: Place,
    v: Mv,
    w: Mv,
)
    requires landing { Landing (geometry t.now) from.y from.x to.y to.x }
    requires vector { past_range v ≡ false }
    requires field { IsHeld (geometry t.now) field.old }
    requires trajectories { IsTrajHeld (geometry t.now) trajectories.old }
    requires maps { IsMapHeld (geometry t.now) maps.old }
    ensures same_field { IsSameField field.new field.old }
    ensures same_trajectories { IsSamePairs trajectories.new trajectories.old }
    ensures same_maps { IsSamePairs maps.new maps.old }
    ensures stored { (u : Source) (b : ℕ) → SaysSame v u b e.now.entry.source.now e.now.entry.reference → w ≡ to_source u b v → store_of field.new trajectories.new maps.new
        ≡ run (owns (geometry t.now)) (put_mv (geometry t.now) traj u b v from.y from.x to.y to.x)
        (store_of field.old trajectories.old maps.old) }
{
    let at = t.field_at(to.y, to.x);
    let old = field.vector(at);
    let entry = e.entry;
    if !entry.takes(old, field.reference[at]) {
        return;
    }
    if traj {
        put_trajs(trajectories, maps, t, e, from, to, v, w);
    }
    field.put(at, entry.turned(v), entry.distance());
}
