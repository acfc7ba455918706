// What the line of a kept pass asks for.
ghost use Rattle.pass_cases.specs.Low.{Low};

use intersect::Place;
use levels::Mv;

/// The passes of a load that are judged each by itself.
#[derive(Clone, Copy, PartialEq, Eq)]
pub enum Kind {
    /// What a load begins with: in row mode the copy of the rows above, then the emptying.
    Emptying,
    /// The vectors of TIP.
    TipProjection,
    /// Empty cells beside others.
    FillHoles,
    /// The mean of a cell and those around it.
    Smoothen,
    /// The field's cells between samples.
    FillGapProj,
    /// The trajectories between samples, of every slot.
    FillGapTraj,
    /// A meeting of two trajectories.
    CheckTrajIntersect,
}

/// No pass has this number.
#[derive(Clone, Copy)]
pub struct UnknownKind;

/// The kind of a number on a line.
impl TryFrom<i64> for Kind {
    type Error = UnknownKind;

    ghost use Rattle.std.specs.Prelude.{◌≡◌, nat_abs, IfOk};
    ghost use Rattle.pass_cases.specs.Code.{code};

    ghost try_from_gives = { λ number r. IfOk r (λ k. code k ≡ nat_abs number) };

    fn try_from(number: i64) -> Result<Kind, UnknownKind> {
        match number {
            0 => Ok(Kind::Emptying),
            1 => Ok(Kind::TipProjection),
            2 => Ok(Kind::FillHoles),
            3 => Ok(Kind::Smoothen),
            4 => Ok(Kind::FillGapProj),
            5 => Ok(Kind::FillGapTraj),
            6 => Ok(Kind::CheckTrajIntersect),
            _ => Err(UnknownKind),
        }
    }
}

/// A pass. Slots, block and vector are those of a meeting (check_traj_intersect).
#[derive(Clone, Copy)]
pub struct Pass {
    pub kind: Kind,
    pub a: usize,
    pub b: usize,
    pub block: Place,
    pub mv: Mv,
    ghost low: { Low a b block mv },
}
