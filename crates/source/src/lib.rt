// Projection of a source: the loop over its saved blocks in load_tmvs.
#![tactic(auto)]

ghost use Rattle.std.specs.Prelude.{◌≡◌, Bool, true, false, not, ◌&&◌, List, ◌*◌, ◌≤◌, negsuc, length, get_or};
ghost use Rattle.intops.specs.Choice.{eq_z};
ghost use Rattle.store.specs.Lent.{IsSamePairs};
ghost use Rattle.store.specs.Program.{run};
ghost use Rattle.tile.specs.Lent.{IsTrajHeld, IsMapHeld};
ghost use Rattle.tile.specs.Owner.{owns};
ghost use Rattle.tile.specs.Tiles.{geometry};
ghost use Rattle.field.specs.Lent.{IsHeld, IsSameField, store_of};
ghost use Rattle.project.specs.Project.{project_source};
ghost use Rattle.project.specs.Tested.{source_in_range, row_fine};

use entry::Source;
use field::Field;
use intersect::Place;
use store::Pairs;
use tile::Tile;

/// A source's saved blocks, over the tile's rows and its columns with the edge on both sides, cut
/// at the frame. A source more than 31 from the frame has ref2cur -32 and is skipped, and so is
/// one whose slot has no plane: `present` tells.
#[tactic(auto, using(tile::proofs::Places::step_some))]
pub fn project_source(
    field: &mut Field<'_>,
    trajectories: &mut Pairs<'_, i32>,
    maps: &mut Pairs<'_, i8>,
    planes: &[i8],
    t: &Tile,
    traj: bool,
    present: bool,
    s: &Source,
)
    requires source { source_in_range s.now ≡ true }
    requires long { 6 * (7 * (t.now.high * t.now.stride)) ≤ length planes.now }
    requires fine { (not (eq_z s.now.ref2cur (negsuc 31)) && present) ≡ true → row_fine (geometry t.now) planes.now s.now ≡ true }
    requires field { IsHeld (geometry t.now) field.old }
    requires trajectories { IsTrajHeld (geometry t.now) trajectories.old }
    requires maps { IsMapHeld (geometry t.now) maps.old }
    ensures same_field { IsSameField field.new field.old }
    ensures same_trajectories { IsSamePairs trajectories.new trajectories.old }
    ensures same_maps { IsSamePairs maps.new maps.old }
    ensures stored { (held : List Bool) → get_or held s.now.reference.0 false ≡ present
        → store_of field.new trajectories.new maps.new
        ≡ run (owns (geometry t.now)) (project_source (geometry t.now) traj held planes.now s.now)
        (store_of field.old trajectories.old maps.old) }
{
    if !present {
        return;
    }
    // -32 and no Option: C's record has it.
    if s.ref2cur == -32 {
        return;
    }
    let n = s.reference.index();
    let from = t.left.saturating_sub(t.edge);
    let end = (t.right + t.edge).min(t.wide);
    let at = saved::rows_at(t, n);
    let part = &planes[at..];
    let count = t.count(from, end);
    // By their numbers: row and column are the block's place.
    for y in (t.top..t.bottom).step_by(t.step) {
        // Counted: by `step_by` a superblock row with step 2 takes 1.3 to 1.4 times as long.
        for i in 0..count {
            let x = from + i * t.step;
            sample::sample(field, trajectories, maps, part, t, traj, s, Place { y, x });
        }
    }
}
