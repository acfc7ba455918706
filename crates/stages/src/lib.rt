// A load's passes in groups, each under its switch. The switches stand here, and not as an `if` in `load_tile`: these functions are
// public, and their clauses state the switch, so that it would be written twice.
#![tactic(auto)]

ghost use Rattle.std.specs.Prelude.{◌≡◌, false, not, ◌*◌, ◌≤◌, eqb, ltb};
ghost use Rattle.store.specs.Lent.{IsSamePairs, with_trajs, stored_trajs};
ghost use Rattle.store.specs.Store.{Store};
ghost use Rattle.store.specs.Program.{run, when, each};
ghost use Rattle.tile.specs.Lent.{IsTrajHeld, IsMapHeld};
ghost use Rattle.tile.specs.Owner.{owns};
ghost use Rattle.tile.specs.Tiles.{geometry};
ghost use Rattle.field.specs.Field.{copy_above};
ghost use Rattle.field.specs.Lent.{IsHeld, IsSameField, stored};
ghost use Rattle.traj.specs.Traj.{empty_trajs, fill_gap_traj};
ghost use Rattle.load.specs.Load.{Call, tip_passes, gap_passes};

use field::Field;
use store::Pairs;
use tile::Tile;

/// Row mode: the three rows above. In whole-frame mode they stand in the field already.
#[tactic(auto, using(field::proofs::Borrows::same_field))]
pub fn copy_rows(field: &mut Field<'_>, t: &Tile, whole_frame: bool)
    requires row_mode { whole_frame ≡ false → t.now.offset ≡ 3 * t.now.stride }
    requires held { IsHeld (geometry t.now) field.old }
    ensures same_borrow { IsSameField field.new field.old }
    ensures stored { (s : Store) → stored s field.new
        ≡ run (owns (geometry t.now)) (when (not whole_frame) (copy_above (geometry t.now))) (stored s field.old) }
{
    if !whole_frame {
        field::copy_above(field, t);
    }
}

/// Trajectories and maps are emptied where trajectories are on.
#[tactic(auto, using(store::proofs::Borrows::same_pairs))]
pub fn clear_trajs(
    trajectories: &mut Pairs<'_, i32>,
    maps: &mut Pairs<'_, i8>,
    t: &Tile,
    traj: bool,
)
    requires trajectories { IsTrajHeld (geometry t.now) trajectories.old }
    requires maps { IsMapHeld (geometry t.now) maps.old }
    ensures same_trajectories { IsSamePairs trajectories.new trajectories.old }
    ensures same_maps { IsSamePairs maps.new maps.old }
    ensures stored { (s : Store) → stored_trajs s trajectories.new maps.new
        ≡ run (owns (geometry t.now)) (when traj (empty_trajs (geometry t.now))) (stored_trajs s trajectories.old maps.old) }
{
    if traj {
        traj::empty_trajs(trajectories, maps, t);
    }
}

/// With TIP mode not 0: the field is projected to the TIP distance, and where holes are filled,
/// filled and smoothed.
#[tactic(auto, using(field::proofs::Borrows::same_field))]
pub fn tip_passes(field: &mut Field<'_>, t: &Tile, mode: u8, delta: i8, holes: bool)
    requires held { IsHeld (geometry t.now) field.old }
    ensures same_borrow { IsSameField field.new field.old }
    ensures stored { (c : Call) → c.setup.tip_frame_mode ≡ mode → c.setup.tip.delta ≡ delta → c.holes ≡ holes
        → (s : Store) → stored s field.new
        ≡ run (owns (geometry t.now)) (when (not (eqb c.setup.tip_frame_mode 0)) (tip_passes (geometry t.now) c)) (stored s field.old) }
{
    if mode != 0 {
        field::tip_projection(field, t, delta);
        if holes {
            holes::fill_holes(field, t, delta);
            smooth::smoothen(field, t, delta);
        }
    }
}

/// The trajectories of the slots in use.
pub fn fill_gap_trajs(trajectories: &mut Pairs<'_, i32>, t: &Tile, n_refs: usize)
    requires slots { n_refs ≤ 7 }
    requires held { IsTrajHeld (geometry t.now) trajectories.old }
    requires step { t.now.step ≡ 2 }
    ensures same_borrow { IsSamePairs trajectories.new trajectories.old }
    ensures stored { (s : Store) → with_trajs s trajectories.new
        ≡ run (owns (geometry t.now)) (each 0 n_refs (fill_gap_traj (geometry t.now))) (with_trajs s trajectories.old) }
{
    // By its number: a slot's number is what the pass takes.
    for n in 0..n_refs {
        traj::fill_gap_traj(trajectories, t, n);
    }
}

/// With step 2: the gaps between samples, of the trajectories whether they are on or not, and of
/// the field.
#[tactic(auto, using(field::proofs::Borrows::same_field, store::proofs::Borrows::same_pairs))]
pub fn gap_passes(field: &mut Field<'_>, trajectories: &mut Pairs<'_, i32>, t: &Tile, n_refs: usize)
    requires slots { n_refs ≤ 7 }
    requires field { IsHeld (geometry t.now) field.old }
    requires trajectories { IsTrajHeld (geometry t.now) trajectories.old }
    ensures same_field { IsSameField field.new field.old }
    ensures same_trajectories { IsSamePairs trajectories.new trajectories.old }
    ensures stored { (c : Call) → c.setup.n_refs ≡ n_refs
        → (s : Store) → stored (with_trajs s trajectories.new) field.new
        ≡ run (owns (geometry t.now)) (when (ltb 1 t.now.step) (gap_passes (geometry t.now) c)) (stored (with_trajs s trajectories.old) field.old) }
{
    if 1 < t.step {
        fill_gap_trajs(trajectories, t, n_refs);
        gaps::fill_gap_proj(field, t);
    }
}
