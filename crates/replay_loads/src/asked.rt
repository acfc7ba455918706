//! The loads and the passes that lines ask for.
ghost use Rattle.std.specs.Prelude.{◌≡◌};
ghost use Rattle.replay_loads.specs.Calls.{call_of, pass_of, numbers, kind_of};

use crate::words::Kind;

/// What a line asks for, with its numbers.
#[derive(Clone, Copy, Debug, PartialEq, Eq)]
pub enum Asked {
    /// A load; the last number is its answer.
    Call([i64; 8]),
    /// A pass of a load.
    Pass([i64; 14]),
}

impl Asked {
    /// What a `call` line asks for; `None` where it has not eight numbers.
    pub fn call(n: &[i64]) -> Option<Asked>
        ensures { result ≡ call_of n.now }
    {
        Some(Asked::Call(n.try_into().ok()?))
    }

    /// What a `pass` line asks for; `None` where it has not fourteen numbers.
    pub fn pass(n: &[i64]) -> Option<Asked>
        ensures { result ≡ pass_of n.now }
    {
        Some(Asked::Pass(n.try_into().ok()?))
    }

    /// The numbers of the line.
    pub fn numbers(&self) -> &[i64]
        ensures { result.now ≡ numbers self.now }
    {
        match self {
            Asked::Call(n) => n,
            Asked::Pass(n) => n,
        }
    }

    /// What it counts as: a load is refused where its answer is not 0.
    pub fn kind(&self) -> Kind
        ensures { result ≡ kind_of self.now }
    {
        match self {
            Asked::Call(n) if n[7] == 0 => Kind::Load,
            Asked::Call(_) => Kind::RefusedLoad,
            Asked::Pass(_) => Kind::Pass,
        }
    }
}
