// A sampled block: trajectories through it go on, and its vector is projected.
#![tactic(auto)]

ghost use Rattle.std.specs.Prelude.{◌≡◌, true, false, not, ◌&&◌, List, ◌-◌, ◌*◌, ◌≤◌, ◌<◌, ℤ, pos, negsuc, nat_abs, length, get_or, drop};
ghost use Rattle.intops.specs.Bounds.{Within};
ghost use Rattle.intops.specs.Choice.{eq_z};
ghost use Rattle.mv.specs.Projection.{past_range};
ghost use Rattle.entry.specs.declared.Source.{Source};
ghost use Rattle.store.specs.Lent.{IsSamePairs, stored_trajs};
ghost use Rattle.store.specs.Store.{Store};
ghost use Rattle.store.specs.Program.{run, when};
ghost use Rattle.tile.specs.Lent.{IsTrajHeld, IsMapHeld};
ghost use Rattle.tile.specs.Owner.{owns};
ghost use Rattle.tile.specs.Tiles.{geometry};
ghost use Rattle.field.specs.Lent.{IsHeld, IsSameField, store_of};
ghost use Rattle.traj.specs.Traj.{check_traj_intersect};
ghost use Rattle.project.specs.Project.{saved_at, saved_ref, saved_mv, ref2idx, project_mv};
ghost use Rattle.project.specs.Project as spec;
ghost use Rattle.project.specs.Tested.{within, block_fine};
ghost use Rattle.saved.specs.Code.{part_at};
ghost use Rattle.sample.specs.Code.{IsReadable, SameNumbers};

use entry::Source;
use field::Field;
use intersect::Place;
use landing::{Entry, LinkedEntry};
use levels::Mv;
use store::Pairs;
use tile::Tile;

// Trajectories through the block go on, where trajectories are on and the reference is in a slot.
fn intersect_at(
    trajectories: &mut Pairs<'_, i32>,
    maps: &mut Pairs<'_, i8>,
    t: &Tile,
    traj: bool,
    e: &Entry<'_>,
    at: Place,
    v: Mv,
)
    requires slot { e.now.source.now.reference.0 < 7 }
    requires idx { within (negsuc 0) (pos 6) (ref2idx e.now.source.now e.now.reference) ≡ true }
    requires row { at.y < t.now.bottom }
    requires column { at.x < t.now.wide }
    requires vector { past_range v ≡ false }
    requires trajectories { IsTrajHeld (geometry t.now) trajectories.old }
    requires maps { IsMapHeld (geometry t.now) maps.old }
    ensures same_trajectories { IsSamePairs trajectories.new trajectories.old }
    ensures same_maps { IsSamePairs maps.new maps.old }
    ensures stored { (u : Store) → stored_trajs u trajectories.new maps.new
        ≡ run (owns (geometry t.now)) (when (traj && not (eq_z (ref2idx e.now.source.now e.now.reference) (negsuc 0))) (check_traj_intersect (geometry t.now) e.now.source.now.reference.0 (nat_abs (ref2idx e.now.source.now e.now.reference)) at.y at.x v))
        (stored_trajs u trajectories.old maps.old) }
{
    // Tested here and not in `sample`: after a branch the check no longer knows the entry that was lent in it.
    if !traj {
        return;
    }
    let Some(m) = e.slot() else {
        return;
    };
    let n = e.source.reference.index();
    intersect::check_traj_intersect(trajectories, maps, t, n, m, at, v);
}

// A vector saved at `from` goes where it leads back to.
fn project_mv(
    field: &mut Field<'_>,
    trajectories: &mut Pairs<'_, i32>,
    maps: &mut Pairs<'_, i8>,
    t: &Tile,
    traj: bool,
    e: &LinkedEntry<'_>,
    from: Place,
    v: Mv,
)
    requires first { Within 507904 (get_or e.now.entry.source.now.ref2sf0 e.now.entry.reference (pos 0)) }
    requires top { t.now.top ≤ from.y }
    requires bottom { from.y < t.now.bottom }
    requires column { from.x < t.now.wide }
    requires vector { past_range v ≡ false }
    requires field { IsHeld (geometry t.now) field.old }
    requires trajectories { IsTrajHeld (geometry t.now) trajectories.old }
    requires maps { IsMapHeld (geometry t.now) maps.old }
    ensures same_field { IsSameField field.new field.old }
    ensures same_trajectories { IsSamePairs trajectories.new trajectories.old }
    ensures same_maps { IsSamePairs maps.new maps.old }
    ensures stored { store_of field.new trajectories.new maps.new
        ≡ run (owns (geometry t.now)) (project_mv (geometry t.now) traj e.now.entry.source.now e.now.entry.reference v from.y from.x)
        (store_of field.old trajectories.old maps.old) }
{
    if !e.entry.right_side() {
        return;
    }
    let w = e.entry.to_source(v);
    let Some(to) = landing::landing(t, from, w) else {
        return;
    };
    put::put_mv(field, trajectories, maps, t, traj, e, from, to, v, w);
}

/// A sampled block of source `s` at `at`. `part` is the plane of the source's slot from the tile's
/// first row on. The source's distance from the frame is not read.
pub fn sample(
    field: &mut Field<'_>,
    trajectories: &mut Pairs<'_, i32>,
    maps: &mut Pairs<'_, i8>,
    part: &[i8],
    t: &Tile,
    traj: bool,
    s: &Source,
    at: Place,
)
    requires source { IsReadable s.now }
    requires long { 6 * ((t.now.bottom - t.now.top) * t.now.stride) ≤ length part.now }
    requires top { t.now.top ≤ at.y }
    requires bottom { at.y < t.now.bottom }
    requires column { at.x < t.now.wide }
    requires fine { block_fine (saved_ref part.now (part_at (geometry t.now) at.y at.x) s.now.dir) (saved_mv part.now (part_at (geometry t.now) at.y at.x) s.now.dir) ≡ true }
    requires field { IsHeld (geometry t.now) field.old }
    requires trajectories { IsTrajHeld (geometry t.now) trajectories.old }
    requires maps { IsMapHeld (geometry t.now) maps.old }
    ensures same_field { IsSameField field.new field.old }
    ensures same_trajectories { IsSamePairs trajectories.new trajectories.old }
    ensures same_maps { IsSamePairs maps.new maps.old }
    ensures stored { (planes : List ℤ) (u : Source) → drop (saved_at (geometry t.now) s.now.reference.0 t.now.top 0) planes ≡ part.now → SameNumbers u s.now
        → store_of field.new trajectories.new maps.new
        ≡ run (owns (geometry t.now)) (spec.sample (geometry t.now) traj planes u at.y at.x)
        (store_of field.old trajectories.old maps.old) }
{
    let i = saved::saved_at(t, at.y, at.x);
    let Some(block) = saved::block_at(part, i, usize::from(s.dir)) else {
        return;
    };
    let entry = Entry {
        source: s,
        reference: block.reference,
    };
    intersect_at(trajectories, maps, t, traj, &entry, at, block.mv);
    let e = LinkedEntry { entry };
    project_mv(field, trajectories, maps, t, traj, &e, at, block.mv);
}
