// A frame file's bytes (docs/FRAME_FILE.md): its header, its tile columns, the rows of its planes.
#![tactic(auto)]

ghost use Rattle.std.specs.Prelude.{cond, ◌≡◌, ◌+◌, ◌*◌, ◌≤◌, ◌<◌, length, take};
ghost use Rattle.framefile.specs.File.{word_at, hints_at, saved_at, all_saved, switches_at, present_of, pocs_of, header_of, is_frame_file, end_at, ends_of, present_before, plane_at, put_row, put_plane, put_present, put_planes};

use frame::Header;
use levels::OrderHint;
use picks::{Pocs, Saved};
use std::array;

// Four bytes, the lowest first.
fn word_at(b: &[u8], at: usize) -> u32
    requires { at + 4 ≤ length b.now }
    ensures { result ≡ word_at b.now at }
{
    u32::from_le_bytes([b[at], b[at + 1], b[at + 2], b[at + 3]])
}

fn hints_at(b: &[u8], at: usize) -> [OrderHint; 7]
    requires { at + 7 ≤ length b.now }
    ensures { result ≡ hints_at b.now at }
{
    array::from_fn(|i| OrderHint(b[at + i]))
}

// A slot's saved hints, and then their count.
fn saved_at(b: &[u8], at: usize) -> Saved
    requires { at + 8 ≤ length b.now }
    ensures { result ≡ saved_at b.now at }
{
    let ref_poc = hints_at(b, at);
    let refcnt = b[at + 7];
    Saved { ref_poc, refcnt }
}

// The head's length is a clause, here and below, and the bytes no `&[u8; 103]`: `header_of` and `present_of` are public and
// take the whole file, from which such an array would be had only by a test whose failure cannot come.
fn all_saved(b: &[u8]) -> [Saved; 7]
    requires { 103 ≤ length b.now }
    ensures { result ≡ all_saved b.now }
{
    array::from_fn(|i| saved_at(b, 37 + 8 * i))
}

fn switches_at(b: &[u8], at: usize) -> [bool; 7]
    requires { at + 7 ≤ length b.now }
    ensures { result ≡ switches_at b.now at }
{
    array::from_fn(|i| b[at + i] != 0)
}

/// For each slot, whether its plane is in the file.
pub fn present_of(b: &[u8]) -> [bool; 7]
    requires { 103 ≤ length b.now }
    ensures { result ≡ present_of b.now }
{
    switches_at(b, 93)
}

fn pocs_of(b: &[u8]) -> Pocs
    requires { 103 ≤ length b.now }
    ensures { result ≡ pocs_of b.now }
{
    let nbits = word_at(b, 5);
    // `as`: there is no `From` from u32 to usize.
    let n_refs = word_at(b, 17) as usize;
    let poc = OrderHint(b[29]);
    let ref_poc = hints_at(b, 30);
    let saved = all_saved(b);
    Pocs {
        nbits,
        poc,
        n_refs,
        ref_poc,
        saved,
    }
}

/// The header of a file.
// Not one with that of `frame_cases`: a line has numbers where a file has bytes and words, each at a place of its own.
pub fn header_of(b: &[u8]) -> Header
    requires { 103 ≤ length b.now }
    ensures { result ≡ header_of b.now }
{
    let width = word_at(b, 9);
    let height = word_at(b, 13);
    let tip = b[21] != 0;
    let sb128 = b[22];
    let tmvp_sample_step = b[23];
    let use_ref_frame_mvs = b[24] != 0;
    let has_bothside_refs = b[25] != 0;
    let tip_frame_mode = b[26];
    let tip0 = text::signed_byte(b[27]);
    let tip1 = text::signed_byte(b[28]);
    let rp_ref = present_of(b);
    let pocs = pocs_of(b);
    Header {
        width,
        height,
        sb128,
        tmvp_sample_step,
        tip,
        use_ref_frame_mvs,
        has_bothside_refs,
        tip_frame_mode,
        tip0,
        tip1,
        rp_ref,
        pocs,
    }
}

/// Do the bytes begin with RMVF and version 1?
pub fn is_frame_file(b: &[u8]) -> bool
    requires { 103 ≤ length b.now }
    ensures { result ≡ is_frame_file b.now }
{
    b.starts_with(b"RMVF\x01".as_slice())
}

/// The end of tile column i, in cells.
pub fn end_at(b: &[u8], i: usize) -> usize
    requires column { i ≤ 254 }
    requires in_file { 107 + 4 * i ≤ length b.now }
    ensures { result ≡ end_at b.now i }
{
    // `as`: there is no `From` from u32 to usize.
    word_at(b, 103 + 4 * i) as usize
}

/// The ends of the first n tile columns.
// How many stands beside the list, which is no slice of so many: the file's bytes are asked for by it, too.
pub fn read_ends(b: &[u8], n: usize, ends: &mut [usize])
    requires columns { n ≤ 255 }
    requires in_file { 103 + 4 * n ≤ length b.now }
    requires room { n ≤ length ends.old }
    ensures { take n ends.new ≡ ends_of b.now n }
{
    for (i, end) in ends[..n].iter_mut().enumerate() {
        *end = end_at(b, i);
    }
}

// How many of the slots below k have their plane in the file.
fn present_before(present: [bool; 7], k: usize) -> usize
    requires { k ≤ 7 }
    ensures value { result ≡ present_before present k }
    ensures most { result ≤ k }
{
    present[..k].iter().filter(|here| **here).count()
}

/// Where slot k's plane begins in a file with n tile columns; for k = 7, where the file ends.
// No `Layout`: that has a stride, too, on which a place in the file does not depend.
pub fn plane_at(present: [bool; 7], n: usize, wide: usize, high: usize, k: usize) -> usize
    requires columns { n ≤ 255 }
    requires wide { wide ≤ 256 }
    requires high { high ≤ 256 }
    requires slot { k ≤ 7 }
    ensures { result ≡ plane_at present n wide high k }
{
    let bytes = 6 * (high * wide);
    103 + 4 * n + present_before(present, k) * bytes
}

/// A row of blocks goes to its place in the planes.
pub fn put_row(line: &[u8], planes: &mut [i8], at: usize)
    requires { at + length line.now ≤ length planes.old }
    ensures { planes.new ≡ put_row line.now at planes.old }
{
    // The index serves both lists: a `zip` with `planes[at..at + line.len()]` would say once more how long the row is.
    for (i, &byte) in line.iter().enumerate() {
        planes[at + i] = text::signed_byte(byte);
    }
}

// How the rows of a plane lie, in blocks.
#[derive(Clone, Copy)]
struct Rows {
    wide: usize,
    high: usize,
    // From row to row of the planes' list.
    stride: usize,
    ghost narrow: { wide ≤ stride },
    ghost stride_low: { stride ≤ 256 },
    ghost high_low: { high ≤ 256 },
}

// Which planes a file has, behind how many tile columns, and how their rows lie.
#[derive(Clone, Copy)]
struct Layout {
    present: [bool; 7],
    columns: usize,
    rows: Rows,
    ghost few: { columns ≤ 255 },
}

// A plane's rows, one behind the other from `from` on in the file, go to the planes, from `at` on.
fn put_plane(b: &[u8], from: usize, rows: Rows, planes: &mut [i8], at: usize)
    requires in_file { from + 6 * (rows.high * rows.wide) ≤ length b.now }
    requires room { at + 6 * (rows.high * rows.stride) ≤ length planes.old }
    ensures { planes.new ≡ put_plane b.now from rows.wide rows.high rows.stride at planes.old }
{
    // A range: a row's number says where it begins in both lists.
    for y in 0..rows.high {
        let row = from + 6 * (y * rows.wide);
        let end = row + 6 * rows.wide;
        put_row(&b[row..end], planes, at + 6 * (y * rows.stride));
    }
}

// The plane of slot k, where the file has one.
fn put_present(b: &[u8], l: Layout, planes: &mut [i8], k: usize)
    requires in_file { plane_at l.present l.columns l.rows.wide l.rows.high 7 ≤ length b.now }
    requires room { 2752512 ≤ length planes.old }
    requires slot { k < 7 }
    ensures { planes.new ≡ put_present b.now l.present l.columns l.rows.wide l.rows.high l.rows.stride k planes.old }
{
    if !l.present[k] {
        return;
    }
    let rows = l.rows;
    let from = plane_at(l.present, l.columns, rows.wide, rows.high, k);
    put_plane(b, from, rows, planes, k * (6 * (rows.high * rows.stride)));
}

/// The planes that a file with n tile columns has; the others stay as they were.
// Its parameters become a `Layout` here and not at its caller: a public one would state the same four facts beside its fields, for one call.
pub fn put_planes(
    b: &[u8],
    present: [bool; 7],
    n: usize,
    wide: usize,
    high: usize,
    stride: usize,
    planes: &mut [i8],
)
    requires columns { n ≤ 255 }
    requires narrow { wide ≤ stride }
    requires stride { stride ≤ 256 }
    requires high { high ≤ 256 }
    requires in_file { plane_at present n wide high 7 ≤ length b.now }
    requires room { 2752512 ≤ length planes.old }
    ensures { planes.new ≡ put_planes b.now present n wide high stride planes.old }
{
    let l = Layout {
        present,
        columns: n,
        rows: Rows { wide, high, stride },
    };
    // A range of slots: `present` and the plane's place both go by the slot's number.
    for k in 0..7 {
        put_present(b, l, planes, k);
    }
}
