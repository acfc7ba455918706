// The judge of a kept load: a call with a setup, lent the seven lists of a store and the planes,
// against the answer that its line states and the lists that are wanted.
#![tactic(auto)]

ghost use Rattle.std.specs.Prelude.{◌≡◌, true, ◌+◌, ◌≤◌, length, Some};
ghost use Rattle.store.specs.Calls.{called};
ghost use Rattle.store.specs.Lent.{IsSamePairs};
ghost use Rattle.store.specs.Store.{pack};
ghost use Rattle.field.specs.Lent.{IsSameField, store_of};
ghost use Rattle.load.specs.Asked.{call_of};
ghost use Rattle.load.specs.Calls.{answer, load};
ghost use Rattle.cases.specs.Verdicts.{WhenTrue, WhenAgrees};
ghost use Rattle.load_cases.specs.LoadCase.{asked_at, TileNumbers, StoreListed, CallAgrees};

pub mod setup;

use cases::Verdict;
use field::Field;
use frame::Frame;
use load::Asked;
use store::Pairs;

// The lists of a case lie in one list of numbers, one after the other, each in room for the longest
// of the kept cases: here they begin. One list, since a line names the list that it sets by a number,
// and of a fixed length, since the programs use no heap.

/// Where the field's y begin.
pub const FIELD_Y: usize = 0;

/// The field's x.
pub const FIELD_X: usize = 2048;

/// Its reference bytes.
pub const FIELD_REF: usize = 4096;

/// The trajectories' y.
pub const TRAJ_Y: usize = 6144;

/// The trajectories' x.
pub const TRAJ_X: usize = 13318;

/// The maps' y.
pub const MAP_Y: usize = 20492;

/// The maps' x.
pub const MAP_X: usize = 42002;

/// The planes' bytes.
pub const PLANES: usize = 63512;

/// What the numbers of a line from k on ask of a load besides its setup.
#[tactic(auto, unfolding(crate::specs::LoadCase::asked_at))]
pub fn asked_at(n: &[i64], k: usize) -> Asked
    requires long { k + 7 ≤ length n.now }
    requires tile { TileNumbers n.now k }
    ensures { result ≡ asked_at n.now k }
{
    Asked {
        whole_frame: cases::is_on(n[k]),
        traj: cases::is_on(n[k + 1]),
        holes: cases::is_on(n[k + 2]),
        col_start: cases::to_usize(n[k + 3]),
        col_end: cases::to_usize(n[k + 4]),
        row_start: cases::to_usize(n[k + 5]),
        row_end: cases::to_usize(n[k + 6]),
    }
}

// The answer's number, 0 where the load is not refused.
fn run_call(
    field: &mut Field<'_>,
    trajectories: &mut Pairs<'_, i32>,
    maps: &mut Pairs<'_, i8>,
    planes: &[i8],
    setup: &Frame,
    asked: Asked,
) -> u8
    ensures same_field { IsSameField field.new field.old }
    ensures same_trajectories { IsSamePairs trajectories.new trajectories.old }
    ensures same_maps { IsSamePairs maps.new maps.old }
    ensures answer { result ≡ answer (call_of setup.now asked planes.now) (store_of field.old trajectories.old maps.old) }
    ensures stored { store_of field.new trajectories.new maps.new
        ≡ called answer load (call_of setup.now asked planes.now) (store_of field.old trajectories.old maps.old) }
{
    let answer = tmvs::load_tmvs(field, trajectories, maps, planes, setup, asked);
    let (number, ()) = cases::said(answer, ());
    number
}

/// Whether the lists of a store are the numbers that are wanted: every element, those that a load
/// leaves alone too. It takes shared lists, which a `Field` or `Pairs` can't hold.
#[tactic(auto, using(crate::proofs::LoadCase::listed, crate::proofs::LoadCase::listed_bytes))]
pub fn same_store(
    field_y: &[i32],
    field_x: &[i32],
    field_ref: &[u8],
    traj_y: &[i32],
    traj_x: &[i32],
    map_y: &[i8],
    map_x: &[i8],
    want: &[i64],
) -> bool
    ensures listed { WhenTrue result (StoreListed (pack field_y.now field_x.now field_ref.now traj_y.now traj_x.now map_y.now map_x.now) want.now) }
{
    cases::same(field_y, want, FIELD_Y)
        && cases::same(field_x, want, FIELD_X)
        && cases::same(field_ref, want, FIELD_REF)
        && cases::same(traj_y, want, TRAJ_Y)
        && cases::same(traj_x, want, TRAJ_X)
        && cases::same(map_y, want, MAP_Y)
        && cases::same(map_x, want, MAP_X)
}

/// The same of the parts of a store, as `judge_call` and `judge_pass` have them.
pub fn same_parts(
    field: &Field<'_>,
    trajectories: &Pairs<'_, i32>,
    maps: &Pairs<'_, i8>,
    want: &[i64],
) -> bool
    ensures listed { WhenTrue result (StoreListed (store_of field.now trajectories.now maps.now) want.now) }
{
    // A function of its own (tried in `judge_call`: no proof where lists are lent side by side out
    // of a `&mut Field`).
    same_store(
        field.y,
        field.x,
        field.reference,
        trajectories.y,
        trajectories.x,
        maps.y,
        maps.x,
        want,
    )
}

// Whether the load of the lines agrees, if they are one. The setup has 171 numbers and the call 8, the
// last of which is the answer's.
#[tactic(auto, using(field::proofs::Borrows::same_field, store::proofs::Borrows::same_pairs))]
fn agrees(
    field: &mut Field<'_>,
    trajectories: &mut Pairs<'_, i32>,
    maps: &mut Pairs<'_, i8>,
    planes: &[i8],
    want: &[i64],
    setup: &[i64],
    n: &[i64],
) -> Option<bool>
    ensures same_field { IsSameField field.new field.old }
    ensures same_trajectories { IsSamePairs trajectories.new trajectories.old }
    ensures same_maps { IsSamePairs maps.new maps.old }
    ensures agrees { result ≡ Some true → CallAgrees setup.now n.now planes.now (store_of field.old trajectories.old maps.old) want.now }
{
    if setup.len() != 171 || n.len() != 8 || !cases::all_within(n, 3, 7, 0, i64::MAX) {
        return None;
    }
    let frame = setup::setup_of(setup);
    if !frame_cases::is_record(frame, setup, 0) {
        return None;
    }
    let stated = n[7];
    let number = run_call(field, trajectories, maps, planes, &frame, asked_at(n, 0));
    if i64::from(number) != stated {
        return Some(false);
    }
    Some(same_parts(field, trajectories, maps, want))
}

/// Judges a load that is lent the parts of a store. The setup has 171 numbers and the call 8, the last
/// of which is the answer's.
// What is wanted, the setup and the call go down as three lists, here and in the judges of passes and of kept cases: they are of three kinds of lines, and
// each has a definition of its own.
pub fn judge_call(
    field: &mut Field<'_>,
    trajectories: &mut Pairs<'_, i32>,
    maps: &mut Pairs<'_, i8>,
    planes: &[i8],
    want: &[i64],
    setup: &[i64],
    n: &[i64],
) -> Verdict
    ensures same_field { IsSameField field.new field.old }
    ensures same_trajectories { IsSamePairs trajectories.new trajectories.old }
    ensures same_maps { IsSamePairs maps.new maps.old }
    ensures agrees { WhenAgrees result (CallAgrees setup.now n.now planes.now (store_of field.old trajectories.old maps.old) want.now) }
{
    agrees(field, trajectories, maps, planes, want, setup, n).into()
}
