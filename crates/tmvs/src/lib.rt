// load_tmvs: the tests, then the load of a tile.
#![tactic(auto)]

ghost use Rattle.std.specs.Prelude.{◌≡◌};
ghost use Rattle.levels.specs.Answer.{refusal_of};
ghost use Rattle.store.specs.Calls.{called};
ghost use Rattle.store.specs.Lent.{IsSamePairs};
ghost use Rattle.field.specs.Lent.{IsSameField, store_of};
ghost use Rattle.load.specs.Asked.{call_of};
ghost use Rattle.load.specs.Calls.{answer, load};

use field::Field;
use frame::Frame;
use levels::Refusal;
use load::Asked;
use store::Pairs;

/// Loads a tile into the lent parts of a store, or says why not (refusals 9 to 12). Nothing is
/// written before the last test has passed.
#[tactic(auto, using(field::proofs::Borrows::same_field, store::proofs::Borrows::same_pairs))]
pub fn load_tmvs(
    field: &mut Field<'_>,
    trajectories: &mut Pairs<'_, i32>,
    maps: &mut Pairs<'_, i8>,
    planes: &[i8],
    setup: &Frame,
    asked: Asked,
) -> Result<(), Refusal>
    ensures same_field { IsSameField field.new field.old }
    ensures same_trajectories { IsSamePairs trajectories.new trajectories.old }
    ensures same_maps { IsSamePairs maps.new maps.old }
    ensures answer { refusal_of result ≡ answer (call_of setup.now asked planes.now) (store_of field.old trajectories.old maps.old) }
    ensures stored { store_of field.new trajectories.new maps.new
        ≡ called answer load (call_of setup.now asked planes.now) (store_of field.old trajectories.old maps.old) }
{
    let t = checks::check_load(setup, asked, planes, field, trajectories, maps)?;
    load_tile::load_tile(field, trajectories, maps, planes, &t, setup, asked);
    Ok(())
}
