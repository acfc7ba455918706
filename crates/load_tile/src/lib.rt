// The passes of a load in their order.
#![tactic(auto)]

ghost use Rattle.std.specs.Prelude.{◌≡◌, false, ◌*◌, ◌≤◌};
ghost use Rattle.store.specs.Lent.{IsSamePairs};
ghost use Rattle.store.specs.Program.{run};
ghost use Rattle.tile.specs.Lent.{IsTrajHeld, IsMapHeld};
ghost use Rattle.tile.specs.Owner.{owns};
ghost use Rattle.tile.specs.Tiles.{geometry};
ghost use Rattle.field.specs.Lent.{IsHeld, IsSameField, store_of};
ghost use Rattle.load.specs.Load.{Call, load_tmvs};
ghost use Rattle.checks.specs.Code.{PlanesHeld};
ghost use Rattle.sources.specs.Code.{SourcesFine};
ghost use Rattle.load_tile.specs.Code.{AsksFor};

use field::Field;
use frame::Frame;
use load::Asked;
use store::Pairs;
use tile::Tile;

/// Loads a tile whose tests have passed: copies the three rows above in row mode, empties the tile,
/// projects the sources, and runs the passes over the field and the trajectories.
#[tactic(auto, using(field::proofs::Borrows::same_after, store::proofs::Borrows::same_pairs_after))]
pub fn load_tile(
    field: &mut Field<'_>,
    trajectories: &mut Pairs<'_, i32>,
    maps: &mut Pairs<'_, i8>,
    planes: &[i8],
    t: &Tile,
    setup: &Frame,
    asked: Asked,
)
    requires row_mode { asked.whole_frame ≡ false → t.now.offset ≡ 3 * t.now.stride }
    requires planes { PlanesHeld (geometry t.now) planes.now }
    requires fine { SourcesFine (geometry t.now) setup.now.rp_ref planes.now setup.now.sources }
    requires slots { setup.now.n_refs ≤ 7 }
    requires field { IsHeld (geometry t.now) field.old }
    requires trajectories { IsTrajHeld (geometry t.now) trajectories.old }
    requires maps { IsMapHeld (geometry t.now) maps.old }
    ensures same_field { IsSameField field.new field.old }
    ensures same_trajectories { IsSamePairs trajectories.new trajectories.old }
    ensures same_maps { IsSamePairs maps.new maps.old }
    ensures stored { (c : Call) → AsksFor c setup.now asked planes.now
        → store_of field.new trajectories.new maps.new
        ≡ run (owns (geometry t.now)) (load_tmvs (geometry t.now) c)
        (store_of field.old trajectories.old maps.old) }
{
    stages::copy_rows(field, t, asked.whole_frame);
    field::empty_field(field, t);
    stages::clear_trajs(trajectories, maps, t, asked.traj);
    sources::project_sources(field, trajectories, maps, planes, t, setup, asked);
    stages::tip_passes(field, t, setup.tip_frame_mode, setup.tip.delta, asked.holes);
    stages::gap_passes(field, trajectories, t, setup.n_refs);
}
