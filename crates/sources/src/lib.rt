// The sources of a load, each projected in its turn.
#![tactic(auto)]

ghost use Rattle.std.specs.Prelude.{◌≡◌};
ghost use Rattle.store.specs.Lent.{IsSamePairs};
ghost use Rattle.store.specs.Program.{run};
ghost use Rattle.tile.specs.Lent.{IsTrajHeld, IsMapHeld};
ghost use Rattle.tile.specs.Owner.{owns};
ghost use Rattle.tile.specs.Tiles.{geometry};
ghost use Rattle.field.specs.Lent.{IsHeld, IsSameField, store_of};
ghost use Rattle.load.specs.Load.{Call, project_sources};
ghost use Rattle.checks.specs.Code.{PlanesHeld};
ghost use Rattle.sources.specs.Code.{SourcesFine};

use field::Field;
use frame::Frame;
use load::Asked;
use store::Pairs;
use tile::Tile;

/// Projects each source that the setup counts, in its order.
pub fn project_sources(
    field: &mut Field<'_>,
    trajectories: &mut Pairs<'_, i32>,
    maps: &mut Pairs<'_, i8>,
    planes: &[i8],
    t: &Tile,
    setup: &Frame,
    asked: Asked,
)
    requires planes { PlanesHeld (geometry t.now) planes.now }
    requires fine { SourcesFine (geometry t.now) setup.now.rp_ref planes.now setup.now.sources }
    requires field { IsHeld (geometry t.now) field.old }
    requires trajectories { IsTrajHeld (geometry t.now) trajectories.old }
    requires maps { IsMapHeld (geometry t.now) maps.old }
    ensures same_field { IsSameField field.new field.old }
    ensures same_trajectories { IsSamePairs trajectories.new trajectories.old }
    ensures same_maps { IsSamePairs maps.new maps.old }
    ensures stored { (c : Call) → c.setup.sources ≡ setup.now.sources → c.setup.rp_ref ≡ setup.now.rp_ref → c.traj ≡ asked.traj → c.planes ≡ planes.now
        → store_of field.new trajectories.new maps.new
        ≡ run (owns (geometry t.now)) (project_sources (geometry t.now) c)
        (store_of field.old trajectories.old maps.old) }
{
    let sources = &setup.sources;
    // By index (tried: nothing is known of the length of an array of structs in a struct when a part of it is walked).
    for n in 0..sources.n_mfmvs {
        let s = &sources.mfmv[n];
        let present = setup.rp_ref[s.reference.index()];
        source::project_source(field, trajectories, maps, planes, t, asked.traj, present, s);
    }
}
