//! Replays an oracle's answers: each line of standard input is a case with the oracle's answer, and the library has to
//! give the same one. A word and decimal numbers (crate lines):
//!
//!     project y x num den min max REFUSAL ry rx
//!     scale y x sf REFUSAL ry rx
//!     quantize y x qy qx
//!     dequantize qy qx REFUSAL y x
//!     hint n a b REFUSAL d
//!     smooth n sum mean
//!     gap n sum mean
//!     frame HEADER REFUSAL RECORD (83 and 171 numbers: frame_cases)
//!
//! Ends at the first case that differs, or that cannot be read.
#![tactic(auto)]

ghost use Rattle.std.specs.Prelude.{◌≡◌, ◌+◌, ◌≤◌, ◌++◌, length, OnOk};
ghost use Rattle.std.specs.Io.KnownBytes.{Appends};
ghost use Rattle.arrayvec.specs.ArrayVec.{array_vec_len};
ghost use Rattle.lines.specs.Line.{seen};
ghost use Rattle.replay.specs.Kinds.{end_of, Judged, Taken};
ghost use Rattle.replay.specs.Report.{end_text, report_text};
ghost use Rattle.replay.specs.Run.{IsEnd};

mod kinds;

use arrayvec::ArrayVec;
use cases::Verdict;
use kinds::{Kind, Tallies};
use lines::run::{TakesLines, take_all};
use lines::{Found, report};
use std::io::Write;

// A reader of cases.
type Reader = lines::Reader<16, 1024>;

// Not the `End` of `replay_loads`: there a list may have no room, too, and what cannot be taken is told in other words.
// And no `Result`: each of the three has a last line of the report, and none is an error of the program.
/// How a line has ended the run.
#[derive(Clone, Copy, Debug, PartialEq, Eq)]
pub enum End {
    /// The input has ended, and all cases agree.
    AllRead,
    /// A case differs.
    Differs,
    /// What was read is no case.
    NotACase,
}

// What the lines have come to.
#[derive(Clone, Copy)]
struct Replay {
    ended: Option<End>,
    tallies: Tallies,
}

impl Replay {
    // Before the first line.
    const NEW: Replay = Replay {
        ended: None,
        tallies: [0; 8],
    };
}

// How a verdict ends the run, if it does. Not one with `judged` of `replay_loads`, which takes a call off its book, too.
fn end_of(verdict: Verdict) -> Option<End>
    ensures { result ≡ end_of verdict }
{
    match verdict {
        Verdict::Agrees => None,
        Verdict::Differs => Some(End::Differs),
        Verdict::NotACase => Some(End::NotACase),
    }
}

// What becomes of the run after a case of this kind: it is counted if it agrees.
#[tactic(auto, using(crate::proofs::Laws::agrees, crate::proofs::Laws::no_end))]
fn take_case(kind: Kind, numbers: &[i64], tallies: &mut Tallies) -> Option<End>
    ensures { Judged kind numbers.now tallies.old tallies.new result }
{
    let ended = end_of(kind.judge(numbers));
    if ended.is_none() {
        report::count_up(tallies, kind.index());
    }
    ended
}

// Not one with that of `replay_loads`: a word is a kind of case here, and there a step on a book and its lists.
fn take_line(line: &Reader, tallies: &mut Tallies) -> Option<End>
    ensures { Taken (seen line.now) tallies.old tallies.new result }
{
    match line.state.found {
        Some(Found::AllRead) => Some(End::AllRead),
        Some(Found::Line) => match Kind::try_from(line.word.as_slice()) {
            Ok(kind) => take_case(kind, line.numbers.as_slice(), tallies),
            Err(_) => Some(End::NotACase),
        },
        _ => Some(End::NotACase),
    }
}

impl TakesLines<16, 1024> for Replay {
    ghost use Rattle.replay.specs.Run.{IsNew, Takes, over};

    ghost IsNew = { IsNew };

    ghost Taken = { Takes };

    ghost over = { over };

    fn begin(&mut self) {
        *self = Replay::NEW;
    }

    fn take(&mut self, line: &Reader) {
        self.ended = take_line(line, &mut self.tallies);
    }

    fn is_over(&self) -> bool {
        self.ended.is_some()
    }
}

// Appends the last line of the report.
#[tactic(auto, unfolding(crate::specs::Report::end_text))]
fn put_end<const N: usize>(
    ended: Option<End>,
    sum: u64,
    line: u64,
    word: &[u8],
    out: &mut ArrayVec<u8, N>,
)
    requires short { length word.now ≤ 16 }
    requires room { array_vec_len out.old + 52 ≤ N }
    ensures { out.new.items ≡ out.old.items ++ end_text ended sum line word.now }
{
    match ended {
        Some(End::AllRead) => report::put_all_agree(sum, out),
        Some(End::NotACase) => report::put_why(line, b"not a case", out),
        Some(End::Differs) => report::put_differs(line, word, out),
        None => report::put_why(line, b"too many lines", out),
    }
}

// Appends the kinds' lines and the last.
#[tactic(auto, unfolding(crate::specs::Report::report_text))]
fn put_report<const N: usize>(run: &Replay, last: &Reader, out: &mut ArrayVec<u8, N>)
    requires room { array_vec_len out.old + 420 ≤ N }
    ensures { out.new.items ≡ out.old.items ++ report_text run.now.ended (seen last.now) run.now.tallies }
{
    kinds::put_kinds(&run.tallies, out);
    put_end(
        run.ended,
        report::total(&run.tallies),
        last.state.line,
        last.word.as_slice(),
        out,
    );
}

// Writes the report on the end of a run, and on nothing else.
fn write_end<W: Write>(
    to: &mut W,
    run: &Replay,
    last: &Reader,
    out: &mut ArrayVec<u8, 420>,
) -> std::io::Result<()>
    requires ended { IsEnd (seen last.now) run.now }
    ensures handed { out.new.items ≡ report_text run.now.ended (seen last.now) run.now.tallies }
    ensures written { OnOk result (Appends (W.contents to.old) (W.contents to.new) (report_text run.now.ended (seen last.now) run.now.tallies)) }
{
    out.clear();
    put_report(run, last, out);
    text::write_out(to, out.as_slice())
}

// Makes the buffers once, and lends them.
fn main(rt: HostRuntime) {
    let mut input = io::large_buffer();
    let mut run = Replay::NEW;
    let mut out = ArrayVec::new();
    let last = take_all(&mut rt.stdin(), &mut input, &mut run);
    let _ = write_end(&mut rt.stdout(), &run, &last, &mut out);
}
