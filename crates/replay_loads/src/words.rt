//! The words that lines start with, and the kinds of cases that are counted.
ghost use Rattle.std.specs.Prelude.{◌≡◌, ◌≤◌};
ghost use Rattle.replay_loads.specs.Words.{number};

/// What a line does.
#[derive(Clone, Copy, Debug, PartialEq, Eq)]
pub enum Word {
    Case,
    Setup,
    Set,
    Call,
    Changed,
    Check,
    Pass,
}

/// A word that no line starts with.
#[derive(Clone, Copy, Debug, PartialEq, Eq)]
pub struct UnknownWord;

impl TryFrom<&[u8]> for Word {
    type Error = UnknownWord;

    ghost use Rattle.std.specs.Prelude.{◌≡◌, ◌≢◌, MatchResult};
    ghost use Rattle.replay_loads.specs.Words.{name};
    ghost use Rattle.replay_loads.specs.declared.words.Word.{Word};

    ghost try_from_gives = { λ word r. MatchResult r (λ w. word.now ≡ name w) (λ _. (w : Word) → word.now ≢ name w) };

    fn try_from(word: &[u8]) -> Result<Word, UnknownWord> {
        match word {
            b"case" => Ok(Word::Case),
            b"setup" => Ok(Word::Setup),
            b"set" => Ok(Word::Set),
            b"call" => Ok(Word::Call),
            b"changed" => Ok(Word::Changed),
            b"check" => Ok(Word::Check),
            b"pass" => Ok(Word::Pass),
            _ => Err(UnknownWord),
        }
    }
}

// Not the `Kind` of `replay`: that is what a line's word says, and this what a call has come to.
/// What a case that agrees counts as.
#[derive(Clone, Copy, Debug, PartialEq, Eq)]
pub enum Kind {
    Load,
    RefusedLoad,
    Pass,
}

/// How many cases of each kind agreed.
pub type Tallies = [u64; 3];

impl Kind {
    /// Where the kind's tally stands.
    pub fn index(self) -> usize
        ensures value { result ≡ number self }
        ensures within { result ≤ 2 }
    {
        // `as`: no `From` gives a variant's number.
        self as usize
    }
}
