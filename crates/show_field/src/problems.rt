//! Why a file cannot be shown, and the line that says so.
ghost use Rattle.std.specs.Prelude.{IfSome, MatchOption, OnOk, ◌≡◌, ◌+◌, ◌≤◌, ◌++◌, [], length};
ghost use Rattle.std.specs.Io.KnownBytes.{Appends};
ghost use Rattle.arrayvec.specs.ArrayVec.{array_vec_len};
ghost use Rattle.show_field.specs.Lines.{line, line_of};

use arrayvec::ArrayVec;
use levels::Refusal;
use std::io;
use std::io::Write;

/// Why a file cannot be shown.
#[derive(Clone, Copy, Debug, PartialEq, Eq)]
pub enum Problem {
    /// The arguments are none that the program knows.
    Usage,
    /// The file is shorter than its header says.
    TooShort,
    /// It does not begin with the name and the version of such a file.
    NotAFrameFile,
    /// `init_frame` refuses the header.
    Setup(Refusal),
    /// More than 2,048 pixels wide or high.
    TooLarge,
    /// No tile columns, or the last does not end at the frame's width.
    TileColumns,
    /// The file is longer than its header says.
    TooLong,
    /// `load_tmvs` refuses a tile.
    Load(Refusal),
    /// A write failed.
    NotWritten,
}

impl Problem {
    // The text of its line; none for a refusal that no setup or no load gives.
    fn message(self) -> Option<&'static [u8]>
        ensures text { MatchOption result (line_of self ≡ []) (λ m. line_of self ≡ line m.now) }
        ensures short { IfSome result (λ m. length m.now ≤ 67) }
    {
        match self {
            Problem::Usage => Some(b"usage: show_field [text | picture] < FILE"),
            Problem::TooShort => Some(b"the file is too short"),
            Problem::NotAFrameFile => Some(b"not a frame file of version 1"),
            Problem::Setup(Refusal::TooManyBits) => Some(
                b"the setup is refused, 3: hint bits above 8",
            ),
            Problem::Setup(Refusal::TooManySlots) => Some(
                b"the setup is refused, 4: slots above 7",
            ),
            Problem::Setup(Refusal::BadSuperblock) => Some(
                b"the setup is refused, 5: superblock code above 2",
            ),
            Problem::Setup(Refusal::BadStep) => Some(b"the setup is refused, 6: step not 1 or 2"),
            Problem::Setup(Refusal::BadSize) => Some(
                b"the setup is refused, 7: width or height not 1..65536",
            ),
            Problem::Setup(Refusal::BadTipSlot) => Some(
                b"the setup is refused, 8: TIP slot not a slot in use",
            ),
            Problem::Setup(_) => None,
            Problem::TooLarge => Some(b"the frame is larger than 2048 x 2048 pixels"),
            Problem::TileColumns => Some(b"the tile columns do not end at the frame's width"),
            Problem::TooLong => Some(b"the file is too long"),
            Problem::Load(Refusal::SetupOutOfRange) => Some(
                b"the load is refused, 9: setup out of range",
            ),
            Problem::Load(Refusal::TileOutOfRange) => Some(
                b"the load is refused, 10: a tile's columns or rows",
            ),
            Problem::Load(Refusal::TooShort) => Some(
                b"the load is refused, 11: planes or store too short",
            ),
            Problem::Load(Refusal::ContentsOutOfRange) => Some(
                b"the load is refused, 12: a saved block out of range",
            ),
            Problem::Load(_) => None,
            Problem::NotWritten => Some(b"the output cannot be written"),
        }
    }
}

// The line of a message. That the buffer has room for it is a clause, here and in `put_line`: it is lent, and of a fixed
// length (no heap).
#[tactic(auto, unfolding(crate::specs::Lines::line))]
fn put_message<const N: usize>(message: &[u8], out: &mut ArrayVec<u8, N>)
    requires short { length message.now ≤ 67 }
    requires room { array_vec_len out.old + 80 ≤ N }
    ensures text { out.new.items ≡ out.old.items ++ line message.now }
    ensures len { array_vec_len out.new ≤ array_vec_len out.old + 80 }
{
    text::put_word(b"show_field: ", out);
    text::put_word(message, out);
    out.push(b'\n');
}

// Appends the problem's line, of at most 80 bytes, or nothing where it has none.
fn put_line<const N: usize>(p: Problem, out: &mut ArrayVec<u8, N>)
    requires room { array_vec_len out.old + 80 ≤ N }
    ensures text { out.new.items ≡ out.old.items ++ line_of p }
    ensures len { array_vec_len out.new ≤ array_vec_len out.old + 80 }
{
    if let Some(message) = p.message() {
        put_message(message, out);
    }
}

fn write_line<W: Write, const N: usize>(
    to: &mut W,
    p: Problem,
    out: &mut ArrayVec<u8, N>,
) -> io::Result<()>
    requires room { 80 ≤ N }
    ensures handed { out.new.items ≡ line_of p }
    ensures written { OnOk result (Appends (W.contents to.old) (W.contents to.new) (line_of p)) }
{
    out.clear();
    put_line(p, out);
    text::write_out(to, out.as_slice())
}

/// Writes the line of a problem.
pub fn tell<W: Write>(to: &mut W, p: Problem) {
    let mut out = ArrayVec::<u8, 80>::new();
    let _ = write_line(to, p, &mut out);
}
