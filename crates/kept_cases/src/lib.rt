// The judge of a kept case: its lists are made of the numbers that the lines have set, and a load or
// a pass that is lent them is judged.
#![tactic(auto)]

ghost use Rattle.std.specs.Prelude.{◌≡◌, ℕ, ◌+◌, ◌≤◌, ◌<◌, Ok, Some, IfSome, length, slice_get};
ghost use Rattle.field.specs.Lent.{store_of};
ghost use Rattle.cases.specs.Numbers.{at};
ghost use Rattle.cases.specs.Verdicts.{WhenAgrees};
ghost use Rattle.kept_cases.specs.KeptCase.{ListsAgree, CaseAgrees};

use cases::Verdict;
use field::Field;
use load_cases::{FIELD_REF, FIELD_X, FIELD_Y, MAP_X, MAP_Y, PLANES, TRAJ_X, TRAJ_Y};
use std::num::TryFromIntError;
use store::Pairs;

// Copies count numbers from a place on to the front of a list; none where one is missing, does not
// fit or has no room.
fn copy<T: Copy + TryFrom<i64, Error = TryFromIntError>>(
    n: &[i64],
    from: usize,
    count: usize,
    to: &mut [T],
) -> Option<()>
    ensures room { IfSome result (λ _. count ≤ length to.new) }
    ensures copied { IfSome result (λ _. (k : ℕ) (v : T) → k < count → slice_get to.new k ≡ Some v → T.try_from_gives (at n.now (from + k)) (Ok v)) }
{
    if to.len() < count {
        return None;
    }
    cases::read(n, from, &mut to[..count])
}

// A pass has fourteen numbers, and reads no planes. By length: `judge` is public and is lent any list, of which the two judges
// make out themselves whether it is a call's or a pass's.
fn judge_lists(
    field: &mut Field<'_>,
    trajectories: &mut Pairs<'_, i32>,
    maps: &mut Pairs<'_, i8>,
    planes: &[i8],
    want: &[i64],
    setup: &[i64],
    n: &[i64],
) -> Verdict
    ensures { WhenAgrees result (ListsAgree setup.now n.now planes.now (store_of field.old trajectories.old maps.old) want.now) }
{
    if n.len() == 14 {
        return pass_cases::judge_pass(field, trajectories, maps, want, setup, n);
    }
    load_cases::judge_call(field, trajectories, maps, planes, want, setup, n)
}

// The verdict on the lists, if the numbers that are set make them. The room of each is that between
// the places where the lists begin.
fn verdict(
    lengths: [usize; 8],
    cells: &[i64],
    want: &[i64],
    setup: &[i64],
    n: &[i64],
) -> Option<Verdict>
    ensures { IfSome result (λ v. WhenAgrees v (CaseAgrees lengths cells.now want.now setup.now n.now)) }
{
    // Arrays with their lengths beside, since the program uses no heap: a load is lent the front of each.
    let mut field_y = [0i32; 2048];
    let mut field_x = [0i32; 2048];
    let mut field_ref = [0u8; 2048];
    let mut traj_y = [0i32; 7174];
    let mut traj_x = [0i32; 7174];
    let mut map_y = [0i8; 21510];
    let mut map_x = [0i8; 21510];
    let mut planes = [0i8; 32256];
    let [a, b, c, d, e, f, g, h] = lengths;
    copy(cells, FIELD_Y, a, &mut field_y)?;
    copy(cells, FIELD_X, b, &mut field_x)?;
    copy(cells, FIELD_REF, c, &mut field_ref)?;
    copy(cells, TRAJ_Y, d, &mut traj_y)?;
    copy(cells, TRAJ_X, e, &mut traj_x)?;
    copy(cells, MAP_Y, f, &mut map_y)?;
    copy(cells, MAP_X, g, &mut map_x)?;
    copy(cells, PLANES, h, &mut planes)?;
    let mut field = Field {
        y: &mut field_y[..a],
        x: &mut field_x[..b],
        reference: &mut field_ref[..c],
    };
    let mut trajectories = Pairs {
        y: &mut traj_y[..d],
        x: &mut traj_x[..e],
    };
    let mut maps = Pairs {
        y: &mut map_y[..f],
        x: &mut map_x[..g],
    };
    Some(judge_lists(
        &mut field,
        &mut trajectories,
        &mut maps,
        &planes[..h],
        want,
        setup,
        n,
    ))
}

/// Judges the case whose lists have these lengths and numbers.
pub fn judge(lengths: [usize; 8], cells: &[i64], want: &[i64], setup: &[i64], n: &[i64]) -> Verdict
    ensures { WhenAgrees result (CaseAgrees lengths cells.now want.now setup.now n.now) }
{
    verdict(lengths, cells, want, setup, n).unwrap_or(Verdict::NotACase)
}
