// The tests that a load begins with, in their order: refusals 9 to 12.
#![tactic(auto)]

ghost use Rattle.std.specs.Prelude.{◌≡◌, ℕ, Bool, true, cond, ◌&&◌, List, [], ◌+◌, ◌-◌, ◌*◌, ◌/◌, ◌≤◌, ◌<◌, leb, ℤ, pos, negsuc, nat_abs, length, get_or, MatchResult};
ghost use Rattle.levels.specs.Answer.{number_of};
ghost use Rattle.frame.specs.Frame.{no_source};
ghost use Rattle.store.specs.Store.{Store, pack, vec, with_traj};
ghost use Rattle.tile.specs.Sound.{TrajHeld};
ghost use Rattle.tile.specs.Tiles.{geometry};
ghost use Rattle.traj.specs.Traj.{traj_in_range};
ghost use Rattle.field.specs.Lent.{store_of};
ghost use Rattle.project.specs.Project.{saved_ref, saved_mv};
ghost use Rattle.project.specs.Tested.{all_below, within, entry_in_range, source_in_range, block_fine};
ghost use Rattle.load.specs.Asked.{asked_of, switched, call_of};
ghost use Rattle.load.specs.Load.{side_of, block_of, edge_of, wide_of, high_of, stride_of, tile_of};
ghost use Rattle.load.specs.Calls.{setup_in_range, tile_fits, long_enough, contents_fine, answer};
ghost use Rattle.checks.specs.Answer.{Tests, MakesTile, AnswersCall};
ghost use Rattle.checks.specs.Code.{AreLengths, PlanesHeld, line_fine, is_fine, fine_at};

use entry::Source;
use field::Field;
use frame::{Frame, Sources};
use levels::{Mv, Refusal, refused_if};
use load::Asked;
use store::Pairs;
use tile::Tile;

// A slot, or -1 for none.
fn slot_or_none(z: i8) -> bool
    ensures { result ≡ within (negsuc 0) (pos 6) z }
{
    (-1..=6).contains(&z)
}

// A distance, or -32 for a source that is skipped.
fn distance_or_skip(z: i8) -> bool
    ensures { result ≡ within (negsuc 31) (pos 31) z }
{
    (-32..=31).contains(&z)
}

// What a source says of a reference: its distance, its slot, the two factors. Not the source and a place in its lists: that the place is
// below 7 would be one more clause.
fn entry_in_range(d: i8, idx: i8, sf0: i32, sf1: i32) -> bool
    ensures { result ≡ (leb (nat_abs d) 31 && within (negsuc 0) (pos 6) idx && leb (nat_abs sf0) 507904 && leb (nat_abs sf1) 507904) }
{
    (d.unsigned_abs() <= 31)
        & slot_or_none(idx)
        & (sf0.unsigned_abs() <= 507904)
        & (sf1.unsigned_abs() <= 507904)
}

fn entries_in_range(s: &Source) -> bool
    ensures { result ≡ all_below 7 (entry_in_range s.now) }
{
    (0..7).all(|k| entry_in_range(s.ref2ref[k], s.ref2idx[k], s.ref2sf0[k], s.ref2sf1[k]))
}

#[tactic(auto, unfolding(project::specs::Tested::source_in_range))]
fn source_in_range(s: &Source) -> bool
    ensures { result ≡ source_in_range s.now }
{
    (s.reference.0 < 7)
        & slot_or_none(s.tgt)
        & (s.dir < 2)
        & distance_or_skip(s.ref2cur)
        & entries_in_range(s)
}

// The sources that the setup counts.
fn sources_in_range(sources: &Sources) -> bool
    requires { sources.now.n_mfmvs ≤ 4 }
    ensures { result ≡ all_below sources.now.n_mfmvs (λ n. source_in_range (get_or sources.now.mfmv n no_source)) }
{
    // By index (tried: nothing is known of the length of an array of structs in a struct when a part of it is walked).
    (0..sources.n_mfmvs).all(
        |n|
            requires { n < 4 }
        { source_in_range(&sources.mfmv[n]) },
    )
}

/// Test 9: the numbers of a setup are in range.
#[tactic(auto, unfolding(load::specs::Calls::setup_in_range))]
pub fn check_setup(setup: &Frame) -> Result<(), Refusal>
    ensures { Tests (setup_in_range setup.now) Refusal.SetupOutOfRange result }
{
    let fine = setup.n_refs <= 7
        && setup.sb128 <= 2
        && setup.tmvp_sample_step != 0
        && setup.tmvp_sample_step <= 2
        && !frame::bad_size(setup.width)
        && !frame::bad_size(setup.height)
        && setup.sources.n_mfmvs <= 4
        && sources_in_range(&setup.sources);
    refused_if(!fine, Refusal::SetupOutOfRange)
}

/// The side of a superblock in cells (S).
#[tactic(auto, using(load::proofs::Accepted::side_low_lem))]
pub fn side_of(setup: &Frame) -> usize
    ensures value { result ≡ side_of setup.now }
    ensures low { result ≤ 32 }
{
    match setup.sb128 {
        0 => 8,
        1 => 16,
        _ => 32,
    }
}

fn block_of(setup: &Frame) -> usize
    ensures { result ≡ block_of setup.now }
{
    if setup.sb128 != 0 && setup.tmvp_sample_step == 2 {
        16
    } else {
        8
    }
}

fn edge_of(setup: &Frame) -> usize
    ensures { result ≡ edge_of setup.now }
{
    if setup.tmvp_sample_step == 2 {
        block_of(setup)
    } else {
        block_of(setup) / 2
    }
}

/// The frame's width in cells (W).
pub fn wide_of(setup: &Frame) -> usize
    ensures { result ≡ wide_of setup.now }
{
    // No `From` takes a u32 to a usize.
    (setup.width as usize).div_ceil(8)
}

/// The frame's height in cells (H).
pub fn high_of(setup: &Frame) -> usize
    ensures value { result ≡ high_of setup.now }
    ensures low { result ≤ 536870912 }
{
    // A cast, as for the width.
    (setup.height as usize).div_ceil(8)
}

/// The length of a row of the store: whole numbers of 32 cells.
pub fn stride_of(setup: &Frame) -> usize
    ensures value { result ≡ stride_of setup.now }
    ensures low { result ≤ 536870912 }
{
    // A cast, as for the width.
    (setup.width as usize).next_multiple_of(256) / 8
}

/// Are the columns and rows a tile's? Rows may be any number.
#[tactic(auto, unfolding(load::specs::Calls::tile_fits))]
pub fn tile_fits(setup: &Frame, asked: Asked) -> bool
    ensures { (w t h : Bool) (p : List ℤ) → result ≡ tile_fits (call_of setup.now (asked_of w t h asked.col_start asked.col_end asked.row_start asked.row_end) p) }
{
    let side = side_of(setup);
    let wide = wide_of(setup);
    let high = high_of(setup);
    let Asked {
        col_start,
        col_end,
        row_start,
        row_end,
        ..
    } = asked;
    // The rows' end is worked out only where they begin in the frame.
    col_start < col_end
        && col_end <= wide
        && col_start % side == 0
        && (col_end % side == 0 || col_end == wide)
        && row_start % side == 0
        && row_start < high
        && (row_end == row_start + side || (high <= row_end && row_end <= row_start + side))
}

/// Test 10: the columns and rows are a tile's. Rows may be any number.
pub fn check_tile(setup: &Frame, asked: Asked) -> Result<(), Refusal>
    ensures { (w t h : Bool) (p : List ℤ) → Tests (tile_fits (call_of setup.now (asked_of w t h asked.col_start asked.col_end asked.row_start asked.row_end) p)) Refusal.TileOutOfRange result }
{
    refused_if(!tile_fits(setup, asked), Refusal::TileOutOfRange)
}

// The row of the field where the superblock row begins.
fn first_row(asked: Asked) -> usize
    ensures { result ≡ cond asked.whole_frame asked.row_start 3 }
{
    if asked.whole_frame {
        asked.row_start
    } else {
        3
    }
}

/// The tile that a load is asked for, which passes tests 9 and 10. Its numbers don't depend on `traj` and `holes`.
pub fn tile_of(setup: &Frame, asked: Asked) -> Tile
    requires setup { setup_in_range setup.now ≡ true }
    requires tile { tile_fits (call_of setup.now asked []) ≡ true }
    ensures { (traj holes : Bool) (p : List ℤ) → geometry result ≡ tile_of (call_of setup.now (switched traj holes asked) p) }
{
    let stride = stride_of(setup);
    let high = high_of(setup);
    Tile {
        side: side_of(setup),
        block: block_of(setup),
        edge: edge_of(setup),
        step: usize::from(setup.tmvp_sample_step),
        wide: wide_of(setup),
        high,
        stride,
        offset: first_row(asked) * stride,
        left: asked.col_start,
        right: asked.col_end,
        top: asked.row_start,
        bottom: asked.row_end.min(high),
    }
}

/// The same where tests 9 and 10 pass, else the refusal of the first that doesn't.
#[tactic(auto, unfolding(load::specs::Calls::answer))]
pub fn try_tile_of(setup: &Frame, asked: Asked) -> Result<Tile, Refusal>
    ensures { (traj holes : Bool) (p : List ℤ) → MakesTile (call_of setup.now (switched traj holes asked) p) result }
{
    check_setup(setup)?;
    check_tile(setup, asked)?;
    Ok(tile_of(setup, asked))
}

// The rows of the field: in whole-frame mode the frame's, raised to a multiple of 32, else a superblock row and three above it.
fn field_rows(setup: &Frame, whole_frame: bool) -> usize
    ensures value { result ≡ cond whole_frame ((high_of setup.now + 31) / 32 * 32) (side_of setup.now + 3) }
    ensures low { result ≤ 536870944 }
{
    if whole_frame {
        high_of(setup).next_multiple_of(32)
    } else {
        side_of(setup) + 3
    }
}

/// How long the lists are of which no test reads more: the field's and the maps'.
#[derive(Clone, Copy)]
pub struct Lengths {
    /// The field's y.
    pub field_y: usize,
    /// The field's x.
    pub field_x: usize,
    /// Its reference bytes.
    pub field_ref: usize,
    /// The maps' y.
    pub map_y: usize,
    /// The maps' x.
    pub map_x: usize,
}

impl Lengths {
    /// Those of a field and of maps that are lent.
    pub fn of(field: &Field<'_>, maps: &Pairs<'_, i8>) -> Lengths
        ensures { (ty tx : List ℤ) → AreLengths result (pack field.now.y.now field.now.x.now field.now.reference.now ty tx maps.now.y.now maps.now.x.now) }
    {
        Lengths {
            field_y: field.y.len(),
            field_x: field.x.len(),
            field_ref: field.reference.len(),
            map_y: maps.y.len(),
            map_x: maps.x.len(),
        }
    }
}

/// Test 11: the planes and the lists of the store are as long as the frame needs. Of each the
/// length is told.
#[tactic(auto, unfolding(load::specs::Calls::long_enough, load::specs::Load::tile_of, tile::specs::Layout::row_cells))]
pub fn check_lengths(
    setup: &Frame,
    asked: Asked,
    planes: usize,
    traj_y: usize,
    traj_x: usize,
    lengths: Lengths,
) -> Result<(), Refusal>
    ensures { (t h : Bool) (a b c d : ℕ) (p : List ℤ) (s : Store) → length p ≡ planes → length s.traj_y ≡ traj_y → length s.traj_x ≡ traj_x → AreLengths lengths s
        → Tests (long_enough (call_of setup.now (asked_of asked.whole_frame t h a b c d) p) s) Refusal.TooShort result }
{
    let stride = stride_of(setup);
    let cells = field_rows(setup, asked.whole_frame) * stride;
    let row = side_of(setup) * stride;
    let long = (6 * (7 * (high_of(setup) * stride)) <= planes)
        & (cells <= lengths.field_y)
        & (cells <= lengths.field_x)
        & (cells <= lengths.field_ref)
        & (7 * row <= traj_y)
        & (7 * row <= traj_x)
        & (21 * row <= lengths.map_y)
        & (21 * row <= lengths.map_x);
    refused_if(!long, Refusal::TooShort)
}

// A block has no reference, or one of the seven and a vector that is the mark as a whole or not at all.
// The tests of a block are joined without branches: this runs for each sampled block, and an `all` that ends early takes four to six times as long.
// The direction is an index, of the block's two vectors and two references.
fn block_fine(planes: &[i8], at: usize, dir: usize) -> bool
    requires block { at + 6 ≤ length planes.now }
    requires direction { dir < 2 }
    ensures { result ≡ block_fine (saved_ref planes.now at dir) (saved_mv planes.now at dir) }
{
    let r = planes[at + 4 + dir];
    let y = planes[at + 2 * dir];
    let x = planes[at + 2 * dir + 1];
    (r == -1) | ((0 <= r) & (r <= 6) & ((y == -128) == (x == -128)))
}

// The sampled blocks of row y, also those outside the tile's columns: projection reads them.
fn line_fine(planes: &[i8], t: &Tile, slot: usize, dir: usize, y: usize) -> bool
    requires planes { PlanesHeld (geometry t.now) planes.now }
    requires slot { slot < 7 }
    requires direction { dir < 2 }
    requires row { y < t.now.high }
    ensures { result ≡ line_fine (geometry t.now) planes.now slot dir y }
{
    // By number, as the definition counts the sampled blocks. Joined without a branch: see `block_fine`.
    let n = t.count(0, t.wide);
    let start = (slot * t.high + y) * t.stride;
    let mut ok = true;
    for i in 0..n {
        ok &= block_fine(planes, 6 * (start + i * t.step), dir);
    }
    ok
}

fn row_fine(planes: &[i8], t: &Tile, slot: usize, dir: usize) -> bool
    requires planes { PlanesHeld (geometry t.now) planes.now }
    requires slot { slot < 7 }
    requires direction { dir < 2 }
    ensures { result ≡ all_below ((t.now.bottom - t.now.top + (t.now.step - 1)) / t.now.step) (λ j. line_fine (geometry t.now) planes.now slot dir (t.now.top + j * t.now.step)) }
{
    // By number, as in `line_fine`.
    let n = t.count(t.top, t.bottom);
    let mut ok = true;
    for j in 0..n {
        ok &= line_fine(planes, t, slot, dir, t.top + j * t.step);
    }
    ok
}

// A source that is skipped, or whose plane is not present, is not looked at.
fn source_fine(planes: &[i8], t: &Tile, present: bool, s: &Source) -> bool
    requires planes { PlanesHeld (geometry t.now) planes.now }
    requires slot { s.now.reference.0 < 7 }
    requires direction { s.now.dir < 2 }
    ensures { result ≡ is_fine (geometry t.now) planes.now present s.now }
{
    if s.ref2cur == -32 || !present {
        return true;
    }
    row_fine(planes, t, s.reference.index(), usize::from(s.dir))
}

// Each source that the setup counts.
fn sources_fine(planes: &[i8], t: &Tile, setup: &Frame) -> bool
    requires setup { setup_in_range setup.now ≡ true }
    requires planes { PlanesHeld (geometry t.now) planes.now }
    ensures { result ≡ all_below setup.now.sources.n_mfmvs (fine_at (geometry t.now) planes.now setup.now) }
{
    let sources = &setup.sources;
    let mut ok = true;
    // By index, as in `sources_in_range`. No `all`: that each turn's source is in range, by the setup's test, would have to be said of a closure, too.
    for n in 0..sources.n_mfmvs {
        let s = &sources.mfmv[n];
        let present = setup.rp_ref[s.reference.index()];
        ok &= source_fine(planes, t, present, s);
    }
    ok
}

// A trajectory is empty with x = 0, or in range.
fn traj_in_range(v: Mv) -> bool
    ensures { result ≡ traj_in_range v }
{
    let near = (v.y.unsigned_abs() <= 65535) & (v.x.unsigned_abs() <= 65535);
    (mv::is_empty(v) & (v.x == 0)) | near
}

// The first n trajectories. Their count stands beside the two lists: slices of so many would want a clause that they are of one length. The flag is joined without a branch: there are 7 x S x stride of them.
fn trajs_in_range(traj_y: &[i32], traj_x: &[i32], n: usize) -> bool
    requires y { n ≤ length traj_y.now }
    requires x { n ≤ length traj_x.now }
    ensures { result ≡ all_below n (λ i. traj_in_range (vec (get_or traj_y.now i (pos 0)) (get_or traj_x.now i (pos 0)))) }
{
    let mut ok = true;
    // By index. Tried by a zip of both lists' fronts, which is proved: a load of one tile of 8K then takes 1.08 times as long as the Rust's, in place of 0.88 times.
    for i in 0..n {
        ok &= traj_in_range(store::vector_at(traj_y, traj_x, i));
    }
    ok
}

/// Test 12: the sampled blocks of the superblock row, and the trajectories, are in range.
// The trajectories' two lists, here and in `check_call`, and no Pairs of them: a Pairs is made of lists that are lent exclusively, and callers
// may have these shared (`check_load` is for a Pairs).
#[tactic(auto, unfolding(tile::specs::Layout::row_cells))]
pub fn check_contents(
    setup: &Frame,
    t: &Tile,
    planes: &[i8],
    traj_y: &[i32],
    traj_x: &[i32],
) -> Result<(), Refusal>
    requires setup { setup_in_range setup.now ≡ true }
    requires planes { PlanesHeld (geometry t.now) planes.now }
    requires held { TrajHeld (geometry t.now) traj_y.now traj_x.now }
    ensures { (a : Asked) (s : Store) → tile_of (call_of setup.now a planes.now) ≡ geometry t.now
        → Tests (contents_fine (call_of setup.now a planes.now) (with_traj s traj_y.now traj_x.now s.map_y s.map_x)) Refusal.ContentsOutOfRange result }
{
    let n = 7 * (t.side * t.stride);
    let fine = sources_fine(planes, t, setup) & trajs_in_range(traj_y, traj_x, n);
    refused_if(!fine, Refusal::ContentsOutOfRange)
}

/// The tile that a load is asked for, or the first test that turns the load back. No test reads the
/// field or the maps: their lengths are told.
#[tactic(auto, unfolding(load::specs::Calls::answer))]
pub fn check_call(
    setup: &Frame,
    asked: Asked,
    planes: &[i8],
    traj_y: &[i32],
    traj_x: &[i32],
    lengths: Lengths,
) -> Result<Tile, Refusal>
    ensures { (traj holes : Bool) (s : Store) → AreLengths lengths s
        → AnswersCall (call_of setup.now (switched traj holes asked) planes.now) (with_traj s traj_y.now traj_x.now s.map_y s.map_x) result }
{
    let t = try_tile_of(setup, asked)?;
    check_lengths(
        setup,
        asked,
        planes.len(),
        traj_y.len(),
        traj_x.len(),
        lengths,
    )?;
    check_contents(setup, &t, planes, traj_y, traj_x)?;
    Ok(t)
}

/// The same of a store that is lent.
pub fn check_load(
    setup: &Frame,
    asked: Asked,
    planes: &[i8],
    field: &Field<'_>,
    trajectories: &Pairs<'_, i32>,
    maps: &Pairs<'_, i8>,
) -> Result<Tile, Refusal>
    ensures { AnswersCall (call_of setup.now asked planes.now) (store_of field.now trajectories.now maps.now) result }
{
    let lengths = Lengths::of(field, maps);
    check_call(
        setup,
        asked,
        planes,
        trajectories.y,
        trajectories.x,
        lengths,
    )
}
