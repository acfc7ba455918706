// The judge of a kept pass: one pass of a load on the tile of a call, lent the parts of a store,
// against the lists that are wanted.
#![tactic(auto)]

ghost use Rattle.std.specs.Prelude.{◌≡◌, true, false, ◌*◌, ◌≤◌, ◌<◌, length, [], Some, IfSome, IfOk, OnOk};
ghost use Rattle.store.specs.Lent.{IsSamePairs};
ghost use Rattle.store.specs.Program.{run};
ghost use Rattle.tile.specs.Lent.{IsTrajHeld, IsMapHeld};
ghost use Rattle.tile.specs.Owner.{owns};
ghost use Rattle.tile.specs.Tiles.{geometry};
ghost use Rattle.field.specs.Lent.{IsHeld, IsSameField, store_of};
ghost use Rattle.load.specs.Asked.{call_of};
ghost use Rattle.load.specs.Load.{tile_of};
ghost use Rattle.cases.specs.Verdicts.{WhenTrue, WhenAgrees};
ghost use Rattle.pass_cases.specs.PassCase.{PassNumbers, emptying, Accepted, PassAgrees};
ghost use Rattle.pass_cases.specs.Code.{Asks, Applies, program_of, Ran};

mod pass;

use cases::Verdict;
use checks::Lengths;
use field::Field;
use frame::Frame;
use intersect::Place;
use levels::{Mv, Refusal};
use load::Asked;
use load_cases::setup;
use pass::{Kind, Pass};
use store::Pairs;
use tile::Tile;

// Kind and slots, the block, its vector, the tile.
fn numbers_fit(n: &[i64]) -> bool
    requires { 14 ≤ length n.now }
    ensures { WhenTrue result (PassNumbers n.now) }
{
    cases::all_within(n, 0, 3, 0, 6)
        && cases::all_within(n, 3, 5, 0, 8191)
        && cases::all_within(n, 5, 7, -65535, 65535)
        && cases::all_within(n, 10, 14, 0, i64::MAX)
}

// The pass that a line asks for: kind a b y x mv_y mv_x, then the numbers of a call's tile.
fn pass_at(n: &[i64]) -> Option<Pass>
    requires { 14 ≤ length n.now }
    ensures { IfSome result (λ p. Asks n.now p) }
{
    if !numbers_fit(n) {
        return None;
    }
    let kind = Kind::try_from(n[0]).ok()?;
    let a = cases::to_usize(n[1]);
    let b = cases::to_usize(n[2]);
    let y = cases::to_usize(n[3]);
    let x = cases::to_usize(n[4]);
    let mv_y = cases::number(n[5]);
    let mv_x = cases::number(n[6]);
    Some(Pass {
        kind,
        a,
        b,
        block: Place { y, x },
        mv: Mv { y: mv_y, x: mv_x },
    })
}

// The tile that is asked for, where tests 9 to 11 accept it. A pass reads no planes: they count as
// long enough.
fn accepted_tile(
    field: &Field<'_>,
    trajectories: &Pairs<'_, i32>,
    maps: &Pairs<'_, i8>,
    setup: &Frame,
    asked: Asked,
) -> Result<Tile, Refusal>
    ensures accepted { OnOk result (Accepted setup.now asked (store_of field.now trajectories.now maps.now)) }
    ensures tile { IfOk result (λ t. geometry t ≡ tile_of (call_of setup.now asked [])) }
{
    let t = checks::try_tile_of(setup, asked)?;
    let planes = 6 * (7 * (checks::high_of(setup) * checks::stride_of(setup)));
    let lengths = Lengths::of(field, maps);
    let (ys, xs) = (trajectories.y.len(), trajectories.x.len());
    checks::check_lengths(setup, asked, planes, ys, xs, lengths)?;
    Ok(t)
}

// Gaps are between samples, and a block is in a row.
fn applies(t: &Tile, pass: &Pass) -> bool
    ensures { WhenTrue result (Applies (geometry t.now) pass.now) }
{
    pass.block.x < t.stride
        && (t.step == 2 || (pass.kind != Kind::FillGapProj && pass.kind != Kind::FillGapTraj))
}

// What a load begins with.
#[tactic(auto, using(field::proofs::Borrows::same_after, store::proofs::Borrows::same_pairs_after, store::proofs::Borrows::same_pairs))]
fn empty(
    field: &mut Field<'_>,
    trajectories: &mut Pairs<'_, i32>,
    maps: &mut Pairs<'_, i8>,
    t: &Tile,
    asked: Asked,
)
    requires row_mode { asked.whole_frame ≡ false → t.now.offset ≡ 3 * t.now.stride }
    requires field { IsHeld (geometry t.now) field.old }
    requires trajectories { IsTrajHeld (geometry t.now) trajectories.old }
    requires maps { IsMapHeld (geometry t.now) maps.old }
    ensures same_field { IsSameField field.new field.old }
    ensures same_trajectories { IsSamePairs trajectories.new trajectories.old }
    ensures same_maps { IsSamePairs maps.new maps.old }
    ensures stored { store_of field.new trajectories.new maps.new
        ≡ run (owns (geometry t.now)) (emptying (geometry t.now) asked.whole_frame asked.traj) (store_of field.old trajectories.old maps.old) }
{
    stages::copy_rows(field, t, asked.whole_frame);
    field::empty_field(field, t);
    stages::clear_trajs(trajectories, maps, t, asked.traj);
}

// The pass of the kind that is asked for.
#[tactic(auto, using(field::proofs::Borrows::same_field, store::proofs::Borrows::same_pairs))]
fn run_pass(
    field: &mut Field<'_>,
    trajectories: &mut Pairs<'_, i32>,
    maps: &mut Pairs<'_, i8>,
    t: &Tile,
    asked: Asked,
    delta: i8,
    pass: &Pass,
)
    requires row_mode { asked.whole_frame ≡ false → t.now.offset ≡ 3 * t.now.stride }
    requires applies { Applies (geometry t.now) pass.now }
    requires field { IsHeld (geometry t.now) field.old }
    requires trajectories { IsTrajHeld (geometry t.now) trajectories.old }
    requires maps { IsMapHeld (geometry t.now) maps.old }
    ensures same_field { IsSameField field.new field.old }
    ensures same_trajectories { IsSamePairs trajectories.new trajectories.old }
    ensures same_maps { IsSamePairs maps.new maps.old }
    ensures stored { store_of field.new trajectories.new maps.new
        ≡ run (owns (geometry t.now)) (program_of (geometry t.now) asked delta pass.now pass.now.kind)
        (store_of field.old trajectories.old maps.old) }
{
    match pass.kind {
        Kind::Emptying => empty(field, trajectories, maps, t, asked),
        Kind::TipProjection => field::tip_projection(field, t, delta),
        Kind::FillHoles => holes::fill_holes(field, t, delta),
        Kind::Smoothen => smooth::smoothen(field, t, delta),
        Kind::FillGapProj => gaps::fill_gap_proj(field, t),
        Kind::FillGapTraj => stages::fill_gap_trajs(trajectories, t, 7),
        Kind::CheckTrajIntersect => {
            intersect::check_traj_intersect(
                trajectories,
                maps,
                t,
                pass.a,
                pass.b,
                pass.block,
                pass.mv,
            );
        }
    }
}

// Runs the pass where its tile's tests have passed and it applies to the tile, else says none.
#[tactic(auto, using(field::proofs::Borrows::same_field, store::proofs::Borrows::same_pairs))]
fn run_on_tile(
    field: &mut Field<'_>,
    trajectories: &mut Pairs<'_, i32>,
    maps: &mut Pairs<'_, i8>,
    setup: &Frame,
    asked: Asked,
    pass: &Pass,
) -> Option<()>
    ensures same_field { IsSameField field.new field.old }
    ensures same_trajectories { IsSamePairs trajectories.new trajectories.old }
    ensures same_maps { IsSamePairs maps.new maps.old }
    ensures ran { IfSome result (λ _. Ran setup.now asked pass.now
        (store_of field.old trajectories.old maps.old)
        (store_of field.new trajectories.new maps.new)) }
{
    // Tried by `.ok()?`: the proof that the pass ran on this tile didn't close.
    let Ok(t) = accepted_tile(field, trajectories, maps, setup, asked) else {
        return None;
    };
    if !applies(&t, pass) {
        return None;
    }
    run_pass(field, trajectories, maps, &t, asked, setup.tip.delta, pass);
    Some(())
}

// Whether the pass of the lines agrees, if they are one. The setup has 171 numbers and the pass 14.
#[tactic(auto, using(field::proofs::Borrows::same_field, store::proofs::Borrows::same_pairs))]
fn agrees(
    field: &mut Field<'_>,
    trajectories: &mut Pairs<'_, i32>,
    maps: &mut Pairs<'_, i8>,
    want: &[i64],
    setup: &[i64],
    n: &[i64],
) -> Option<bool>
    ensures same_field { IsSameField field.new field.old }
    ensures same_trajectories { IsSamePairs trajectories.new trajectories.old }
    ensures same_maps { IsSamePairs maps.new maps.old }
    ensures agrees { result ≡ Some true → PassAgrees setup.now n.now (store_of field.old trajectories.old maps.old) want.now }
{
    if setup.len() != 171 || n.len() != 14 {
        return None;
    }
    let pass = pass_at(n)?;
    let frame = setup::setup_of(setup);
    if !frame_cases::is_record(frame, setup, 0) {
        return None;
    }
    let asked = load_cases::asked_at(n, 7);
    run_on_tile(field, trajectories, maps, &frame, asked, &pass)?;
    Some(load_cases::same_parts(field, trajectories, maps, want))
}

/// Judges one pass of a load that is lent the parts of a store.
pub fn judge_pass(
    field: &mut Field<'_>,
    trajectories: &mut Pairs<'_, i32>,
    maps: &mut Pairs<'_, i8>,
    want: &[i64],
    setup: &[i64],
    n: &[i64],
) -> Verdict
    ensures same_field { IsSameField field.new field.old }
    ensures same_trajectories { IsSamePairs trajectories.new trajectories.old }
    ensures same_maps { IsSamePairs maps.new maps.old }
    ensures agrees { WhenAgrees result (PassAgrees setup.now n.now (store_of field.old trajectories.old maps.old) want.now) }
{
    agrees(field, trajectories, maps, want, setup, n).into()
}
