//! How a run ends: what it writes, and writing it.
ghost use Rattle.std.specs.Io.KnownBytes.{Appends};
ghost use Rattle.std.specs.Prelude.{◌≡◌, ◌+◌, ◌≤◌, ◌++◌, OnOk};
ghost use Rattle.arrayvec.specs.ArrayVec.{array_vec_len};
ghost use Rattle.lines.specs.Line.{seen};
ghost use Rattle.replay_loads.specs.Report.{tallies_text, end_text, report_text};
ghost use Rattle.replay_loads.specs.Run.{IsEnd};

use crate::asked::Asked;
use crate::book::End;
use crate::words::{Kind, Tallies};
use crate::{Reader, Replay};
use arrayvec::ArrayVec;
use lines::report;
use std::io::{Result, Write};

// Appends a line for each kind of cases.
#[tactic(auto, unfolding(crate::specs::Report::tallies_text))]
fn put_tallies<const N: usize>(tallies: &Tallies, out: &mut ArrayVec<u8, N>)
    requires room { array_vec_len out.old + 114 ≤ N }
    ensures text { out.new.items ≡ out.old.items ++ tallies_text tallies.now }
    ensures len { array_vec_len out.new ≤ array_vec_len out.old + 114 }
{
    report::put_agreed(b"loads", tallies[Kind::Load.index()], out);
    report::put_agreed(b"refused loads", tallies[Kind::RefusedLoad.index()], out);
    report::put_agreed(b"passes", tallies[Kind::Pass.index()], out);
}

// Appends the last line of the report.
fn put_end<const N: usize>(end: &Option<End>, sum: u64, last: u64, out: &mut ArrayVec<u8, N>)
    requires room { array_vec_len out.old + 62 ≤ N }
    ensures { out.new.items ≡ out.old.items ++ end_text end.now sum last }
{
    match *end {
        Some(End::AllTaken) => report::put_all_agree(sum, out),
        Some(End::Differs { line, asked }) => match asked {
            Asked::Call(_) => report::put_differs(line, b"call", out),
            Asked::Pass(_) => report::put_differs(line, b"pass", out),
        },
        Some(End::NotALine) => report::put_why(last, b"not a line that may stand here", out),
        Some(End::NoRoom) => report::put_why(last, b"no room for the lists of this case", out),
        None => report::put_why(last, b"too many lines", out),
    }
}

#[tactic(auto, unfolding(crate::specs::Report::report_text))]
fn put_report<const N: usize>(run: &Replay, line: u64, out: &mut ArrayVec<u8, N>)
    requires room { array_vec_len out.old + 176 ≤ N }
    ensures { out.new.items ≡ out.old.items ++ report_text run.now.book line run.now.tallies }
{
    put_tallies(&run.tallies, out);
    put_end(&run.book.ended, report::total(&run.tallies), line, out);
}

// Not one with that of `replay`: the reports differ, and the rest is two calls.
/// Writes the report on the end of a run, and on nothing else.
pub fn write_end<W: Write>(
    to: &mut W,
    run: &Replay,
    last: &Reader,
    out: &mut ArrayVec<u8, 176>,
) -> Result<()>
    requires ended { IsEnd (seen last.now) run.now }
    ensures handed { out.new.items ≡ report_text run.now.book last.now.state.line run.now.tallies }
    ensures written { OnOk result (Appends (W.contents to.old) (W.contents to.new) (report_text run.now.book last.now.state.line run.now.tallies)) }
{
    out.clear();
    put_report(run, last.state.line, out);
    text::write_out(to, out.as_slice())
}
