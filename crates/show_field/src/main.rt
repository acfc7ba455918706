//! Reads a frame file from standard input, loads the frame's motion field, and writes it to standard
//! output: as text, or with the argument `picture` as a picture. docs/FRAME_FILE.md has the file, the
//! text, the picture, and the lines for files that cannot be shown.
#![tactic(auto)]

mod from_file;
mod problems;
mod view;
mod write;

ghost use Rattle.std.specs.Prelude.{MatchResult, Some, ◌≡◌, ◌+◌, ◌*◌, ◌≤◌, ◌<◌, length};
ghost use Rattle.show_field.specs.Asked.{asked};
ghost use Rattle.show_field.specs.Shown.{bad_columns, rest_problem, problem_of, Accepted, Complete, Shows};

use field::Field;
use frame::Frame;
use problems::Problem;
use show::Cells;
use std::env::{Env, FillError};
use std::io::{Read, Write};

/// What is made of a field.
#[derive(Clone, Copy, Debug, PartialEq, Eq)]
pub enum Wanted {
    /// A line for each cell.
    Text,
    /// A PPM file.
    Picture,
}

/// The form that an argument names.
impl TryFrom<&[u8]> for Wanted {
    type Error = Problem;

    ghost use Rattle.std.specs.Prelude.{◌≡◌};
    ghost use Rattle.show_field.specs.Asked.{wanted_by};

    ghost try_from_gives = { λ word r. r ≡ wanted_by word.now };

    fn try_from(word: &[u8]) -> Result<Wanted, Problem> {
        if word == b"text".as_slice() {
            return Ok(Wanted::Text);
        }
        if word == b"picture".as_slice() {
            return Ok(Wanted::Picture);
        }
        Err(Problem::Usage)
    }
}

// count: how many arguments there are, with the program's own name; arg: the first after the name.
#[tactic(auto, unfolding(crate::specs::Asked::asked))]
fn wanted_of(count: usize, arg: &[u8]) -> Result<Wanted, Problem>
    ensures { result ≡ asked count arg.now }
{
    if count < 2 {
        return Ok(Wanted::Text);
    }
    if 2 < count {
        return Err(Problem::Usage);
    }
    Wanted::try_from(arg)
}

fn has_arg(rt: &impl Env, i: usize) -> bool {
    let mut start = [0u8; 1];
    !matches!(rt.arg(i, &mut start), Err(FillError::NotPresent))
}

// How many arguments there are, with the program's own name. `Env` has no count, and more than two are all refused: 3 stands
// for each such count.
fn arg_count(rt: &impl Env) -> usize {
    if !has_arg(rt, 1) {
        return 1;
    }
    if !has_arg(rt, 2) {
        return 2;
    }
    3
}

fn asked(rt: &impl Env) -> Result<Wanted, Problem> {
    let mut arg = [0u8; 16];
    // One that is missing, or longer than 16 bytes, is read as the empty word, which is neither form.
    let word = match rt.arg(1, &mut arg) {
        Ok(n) => &arg[..n],
        Err(_) => &[],
    };
    wanted_of(arg_count(rt), word)
}

// Are there no tile columns, or does the last not end at the frame's width?
fn bad_columns(file: &[u8], n: usize, wide: usize) -> bool
    requires columns { n ≤ 255 }
    requires in_file { 103 + 4 * n ≤ length file.now }
    ensures { result ≡ bad_columns file.now n wide }
{
    n == 0 || framefile::end_at(file, n - 1) != wide
}

// The setup of a file: tests of the head, of the header and of the frame's size.
fn setup_of(file: &[u8]) -> Result<Frame, Problem>
    ensures { MatchResult result (λ setup. Accepted file.now setup) (λ p. problem_of file.now ≡ Some p) }
{
    if file.len() < 103 {
        return Err(Problem::TooShort);
    }
    if !framefile::is_frame_file(file) {
        return Err(Problem::NotAFrameFile);
    }
    let setup = frame::init_frame(&framefile::header_of(file)).map_err(Problem::Setup)?;
    if 2048 < setup.width {
        return Err(Problem::TooLarge);
    }
    if 2048 < setup.height {
        return Err(Problem::TooLarge);
    }
    Ok(setup)
}

// The setup is accepted: tests of length and tile columns.
fn check_rest(file: &[u8], setup: &Frame) -> Result<(), Problem>
    requires accepted { Accepted file.now setup.now }
    ensures { MatchResult result (λ _. Complete file.now setup.now) (λ p. problem_of file.now ≡ Some p) }
{
    let n = from_file::columns_of(file);
    let wide = checks::wide_of(setup);
    let present = framefile::present_of(file);
    let end = framefile::plane_at(present, n, wide, checks::high_of(setup), 7);
    if file.len() < end {
        return Err(Problem::TooShort);
    }
    if bad_columns(file, n, wide) {
        return Err(Problem::TileColumns);
    }
    if end < file.len() {
        return Err(Problem::TooLong);
    }
    Ok(())
}

// Loads the field and writes it; answers how many parts that were. The lists hold frames up to 2048 x 2048 pixels.
fn show_loaded<W: Write>(
    to: &mut W,
    file: &[u8],
    setup: &Frame,
    wanted: Wanted,
) -> Result<u32, Problem>
    requires complete { Complete file.now setup.now }
    ensures { Shows W.contents wanted file.now to.old to.new result }
{
    // A field of 256 x 256 cells, empty. Literals: as answers of `from_file::filled` they took 256 KiB more of the stack.
    let mut ys = [levels::INVALID_MV; 65536];
    let mut xs = [0i32; 65536];
    let mut references = [0u8; 65536];
    let mut field = Field {
        y: &mut ys,
        x: &mut xs,
        reference: &mut references,
    };
    from_file::load_field(file, setup, &mut field).map_err(Problem::Load)?;
    let cells = Cells {
        y: &ys,
        x: &xs,
        reference: &references,
    };
    write::write_field(to, wanted, setup, cells).map_err(|_| Problem::NotWritten)
}

// Nothing is written where there is a problem.
fn show<W: Write>(to: &mut W, file: &[u8], wanted: Wanted) -> Result<u32, Problem>
    ensures { Shows W.contents wanted file.now to.old to.new result }
{
    let setup = setup_of(file)?;
    check_rest(file, &setup)?;
    show_loaded(to, file, &setup, wanted)
}

// The longest file that is not too long has 255 tile columns and seven planes of 256 x 256 blocks; by one byte more a longer one is seen.
fn show_input<R: Read, W: Write>(
    from: &mut R,
    to: &mut W,
    wanted: Wanted,
    file: &mut [u8],
) -> Result<u32, Problem>
    requires { 103 + 4 * 255 + 7 * (6 * (256 * 256)) < length file.old }
{
    let n = text::read_full(from, file).bytes;
    show(to, &file[..n], wanted)
}

// `inline(never)`: the program's buffers stand in this function's frame or below it, so that what is wrong with the arguments is told without their room.
#[inline(never)]
fn run<R: Read, W: Write>(from: &mut R, to: &mut W, wanted: Wanted) -> Result<u32, Problem> {
    let mut file: [u8; 2753636] = from_file::filled(0);
    show_input(from, to, wanted, &mut file)
}

// Shows what the arguments ask for.
fn show_asked(rt: &HostRuntime) -> Result<u32, Problem> {
    let wanted = asked(rt)?;
    run(&mut rt.stdin(), &mut rt.stdout(), wanted)
}

fn main(rt: HostRuntime) {
    if let Err(problem) = show_asked(&rt) {
        problems::tell(&mut rt.stderr(), problem);
    }
}
