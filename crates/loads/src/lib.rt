// Every tile of a frame, loaded in whole-frame mode: rows from the top, in a row from left to right.
#![tactic(auto)]

ghost use Rattle.std.specs.Prelude.{◌≡◌, ◌≤◌};
ghost use Rattle.levels.specs.Answer.{refusal_of};
ghost use Rattle.store.specs.Lent.{IsSamePairs};
ghost use Rattle.field.specs.Lent.{IsSameField, store_of};
ghost use Rattle.loads.specs.Frame.{row_calls, frame_calls, until_refused, after};

use field::Field;
use frame::Frame;
use levels::Refusal;
use load::Asked;
use store::Pairs;

// The tiles of a superblock row; ends are the tile columns' ends. The first refusal ends it.
// No struct of setup, planes and switches: a call is made of them for each tile.
fn load_row(
    field: &mut Field<'_>,
    trajectories: &mut Pairs<'_, i32>,
    maps: &mut Pairs<'_, i8>,
    planes: &[i8],
    setup: &Frame,
    traj: bool,
    holes: bool,
    ends: &[usize],
    row: usize,
) -> Result<(), Refusal>
    requires { row ≤ 65536 }
    ensures same_field { IsSameField field.new field.old }
    ensures same_trajectories { IsSamePairs trajectories.new trajectories.old }
    ensures same_maps { IsSamePairs maps.new maps.old }
    ensures loaded { after (refusal_of result) (store_of field.new trajectories.new maps.new)
        ≡ until_refused (row_calls setup.now traj holes planes.now row 0 ends.now) (store_of field.old trajectories.old maps.old) }
{
    let bottom = row + checks::side_of(setup);
    let mut start = 0;
    for end in ends {
        let asked = Asked {
            whole_frame: true,
            traj,
            holes,
            col_start: start,
            col_end: *end,
            row_start: row,
            row_end: bottom,
        };
        tmvs::load_tmvs(field, trajectories, maps, planes, setup, asked)?;
        start = *end;
    }
    Ok(())
}

/// Loads all superblock rows of a frame; `ends` are the ends of its tile columns. The first refusal
/// ends it, and leaves what was loaded before.
pub fn load_frame(
    field: &mut Field<'_>,
    trajectories: &mut Pairs<'_, i32>,
    maps: &mut Pairs<'_, i8>,
    planes: &[i8],
    setup: &Frame,
    traj: bool,
    holes: bool,
    ends: &[usize],
) -> Result<(), Refusal>
    requires { setup.now.height ≤ 65536 }
    ensures same_field { IsSameField field.new field.old }
    ensures same_trajectories { IsSamePairs trajectories.new trajectories.old }
    ensures same_maps { IsSamePairs maps.new maps.old }
    ensures loaded { after (refusal_of result) (store_of field.new trajectories.new maps.new)
        ≡ until_refused (frame_calls setup.now traj holes planes.now ends.now) (store_of field.old trajectories.old maps.old) }
{
    let side = checks::side_of(setup);
    // By its number: a superblock row is loaded by its first row.
    for row in (0..checks::high_of(setup)).step_by(side) {
        load_row(
            field,
            trajectories,
            maps,
            planes,
            setup,
            traj,
            holes,
            ends,
            row,
        )?;
    }
    Ok(())
}
