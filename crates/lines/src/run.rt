//! A run of a program over lines: line after line is read and taken, until one ends it.
ghost use Rattle.std.specs.Prelude.{◌≡◌, Bool, false};
ghost use Rattle.lines.specs.Line.{Reader as Line, seen};
ghost use Rattle.lines.specs.Run.{Ended};

use crate::Reader;
use std::io::Read;

/// What a program makes of lines: words of at most `W` letters, and at most `N` numbers.
pub trait TakesLines<const W: usize, const N: usize> {
    /// Nothing is taken yet.
    ghost IsNew: { Self → Type 0 };
    /// What the line that was read makes of it.
    ghost Taken: { Line → Self → Self → Type 0 };
    /// Whether a line has ended the run.
    ghost over: { Self → Bool };

    /// Before the first line.
    fn begin(&mut self)
        ensures new { IsNew self.new }
        ensures goes_on { over self.new ≡ false };

    /// Takes the line that was read.
    fn take(&mut self, line: &Reader<W, N>)
        ensures { Taken (seen line.now) self.old self.new };

    /// Whether a line has ended the run.
    fn is_over(&self) -> bool
        ensures { result ≡ over self.now };
}

/// Takes line after line, until one ends the run or no turn may follow, and answers the last. A proved loop has to end,
/// and nothing says that the input does.
pub fn take_all<R: Read, T: TakesLines<W, N>, const W: usize, const N: usize>(
    from: &mut R,
    input: &mut [u8],
    run: &mut T,
) -> Reader<W, N>
    ensures { Ended W N T.IsNew T.Taken T.over (seen result) run.new }
{
    let mut line = Reader::new();
    run.begin();
    for _ in 0..=u64::MAX {
        line.next_line(from, input);
        run.take(&line);
        if run.is_over() {
            return line;
        }
    }
    line
}
