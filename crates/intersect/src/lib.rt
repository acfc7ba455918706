// Trajectories carried on from one slot to another where they meet (check_traj_intersect), and the
// ends of trajectories in the maps.
#![tactic(auto)]

ghost use Rattle.std.specs.Prelude.{◌≡◌, true, false, ◌+◌, ◌/◌, ◌≤◌, ◌<◌, ◌^◌, Some, None, if◌then◌else◌, pos, neg_ℤ, ◌+ℤ◌, ◌-ℤ◌};
ghost use Rattle.intops.specs.Choice.{clip_z};
ghost use Rattle.intops.specs.Bounds.{Within};
ghost use Rattle.store.specs.Lent.{IsWithinPairs, IsSamePairs, with_maps, stored_trajs};
ghost use Rattle.store.specs.Store.{Store};
ghost use Rattle.store.specs.Program.{run, each};
ghost use Rattle.tile.specs.Layout.{place, on_step, cells_of, moved};
ghost use Rattle.tile.specs.Lent.{IsTrajHeld, IsMapHeld};
ghost use Rattle.tile.specs.Owner.{owns};
ghost use Rattle.tile.specs.Tiles.{geometry};
ghost use Rattle.traj.specs.Traj as spec;
ghost use Rattle.intersect.specs.Code.{IsLow, IsOwn, IsNear, InStore, entered, map_entry, led_to, followed};

use levels::{Mv, QMv};
use store::Pairs;
use tile::Tile;

/// A cell of the frame.
// Any numbers, and no ghost field: what is asked of a place (`IsOwn`, `IsNear`, within the tile's columns) depends on the tile, and says more than that it is low.
#[derive(Clone, Copy)]
pub struct Place {
    /// Its row.
    pub y: usize,
    /// Its column.
    pub x: usize,
}

// The sampled row or column where a vector's component ends.
fn end_at(t: &Tile, x: usize, v: i32) -> usize
    requires { x < 2 ^ 32 }
    ensures { result ≡ on_step (geometry t.now) (moved x (cells_of v)) }
{
    t.on_step(tile::moved_by(x, tile::cells_of(v)))
}

// The sampled cell where a vector ends.
fn end_of(t: &Tile, from: Place, v: Mv) -> Place
    requires low { IsLow from }
    ensures y { result.y ≡ on_step (geometry t.now) (moved from.y (cells_of v.y)) }
    ensures x { result.x ≡ on_step (geometry t.now) (moved from.x (cells_of v.x)) }
{
    Place {
        y: end_at(t, from.y, v.y),
        x: end_at(t, from.x, v.x),
    }
}

// Does v end in the window of `first`'s block?
#[tactic(auto, unfolding(traj::specs::Traj::ends_in))]
fn ends_in(t: &Tile, first: Place, from: Place, v: Mv) -> bool
    requires row { first.y < 2 ^ 40 }
    requires column { first.x < 2 ^ 40 }
    requires from { IsLow from }
    ensures { result ≡ spec.ends_in (geometry t.now) first.y first.x from.y from.x v }
{
    let dy = tile::cells_of(v.y);
    let dx = tile::cells_of(v.x);
    let there = tile::is_there(from.y, dy) & tile::is_there(from.x, dx);
    let near = t.near_col(first.x, tile::moved_by(from.x, dx));
    there & near & t.same_rows(first.y, tile::moved_by(from.y, dy))
}

// The way from b back to a, as a map cell has it.
fn way_back(a: usize, b: usize) -> i8
    requires after { a ≤ b + 127 }
    requires before { b ≤ a + 127 }
    requires low { a < 2 ^ 32 }
    ensures { result ≡ pos a -ℤ pos b }
{
    // By `as`: usize has no From into i64, and a byte has each difference that the clauses allow.
    (a as i64 - b as i64) as i8
}

/// Enters `end`, a place of the window of `first`'s block, in the map of slot `n` for the
/// trajectory at `first`.
pub fn enter_place(maps: &mut Pairs<'_, i8>, t: &Tile, n: usize, first: Place, end: Place)
    requires slot { n < 7 }
    requires first { IsOwn (geometry t.now) first }
    requires rows { IsNear (geometry t.now) first.y end.y }
    requires columns { IsNear (geometry t.now) first.x end.x }
    requires inside { end.x < t.now.wide }
    requires held { IsMapHeld (geometry t.now) maps.old }
    ensures same_borrow { IsSamePairs maps.new maps.old }
    ensures stored { (s : Store) → with_maps s maps.new
        ≡ run (owns (geometry t.now)) (entered (geometry t.now) n first end) (with_maps s maps.old) }
{
    let k = t.in_blocks(first.x) + 1 - t.in_blocks(end.x);
    let at = t.map_at(k, n, end.y, end.x);
    let way = QMv {
        y: way_back(first.y, end.y),
        x: way_back(first.x, end.x),
    };
    maps.put_packed(at, way);
}

/// Enters the end of `v` from `from`, where it lies in the window of `first`'s block, in the map of
/// slot `n` for the trajectory at `first`.
pub fn enter_end(maps: &mut Pairs<'_, i8>, t: &Tile, n: usize, first: Place, from: Place, v: Mv)
    requires slot { n < 7 }
    requires first { IsOwn (geometry t.now) first }
    requires from { IsLow from }
    requires held { IsMapHeld (geometry t.now) maps.old }
    ensures same_borrow { IsSamePairs maps.new maps.old }
    ensures stored { (s : Store) → with_maps s maps.new
        ≡ run (owns (geometry t.now)) (spec.enter_end (geometry t.now) n first.y first.x from.y from.x v) (with_maps s maps.old) }
{
    if !ends_in(t, first, from, v) {
        return;
    }
    enter_place(maps, t, n, first, end_of(t, from, v));
}

// A trajectory is lent as it is: the sum may leave 32 bits.
fn clip_sum(a: i32, b: i32, bound: u16) -> i32
    ensures { result ≡ clip_z (neg_ℤ (pos bound)) (pos bound) (a +ℤ b) }
{
    let m = i32::from(bound);
    intops::iclip64to32(i64::from(a) + i64::from(b), -m, m)
}

// One half: slot a's trajectories through `at`, in whose windows `origin` lies too, go on by mv to
// slot b, clipped to ±bound.
// What is asked of it (`InStore`) depends on the tile, so that it is no ghost field.
#[derive(Clone, Copy)]
struct Half {
    bound: u16,
    a: usize,
    b: usize,
    at: Place,
    origin: Place,
    mv: Mv,
}

// Where slot b has no trajectory at `first`, it gets slot a's there with mv added.
fn extend(
    trajectories: &mut Pairs<'_, i32>,
    maps: &mut Pairs<'_, i8>,
    t: &Tile,
    h: &Half,
    first: Place,
)
    requires from_slot { h.now.a < 7 }
    requires to_slot { h.now.b < 7 }
    requires first { IsOwn (geometry t.now) first }
    requires trajectories { IsTrajHeld (geometry t.now) trajectories.old }
    requires maps { IsMapHeld (geometry t.now) maps.old }
    ensures same_trajectories { IsSamePairs trajectories.new trajectories.old }
    ensures same_maps { IsSamePairs maps.new maps.old }
    ensures stored { (s : Store) → stored_trajs s trajectories.new maps.new
        ≡ run (owns (geometry t.now)) (spec.extend (geometry t.now) h.now.bound h.now.a h.now.b first.y first.x h.now.mv)
        (stored_trajs s trajectories.old maps.old) }
{
    let to = t.traj_at(h.b, first.y, first.x);
    let taken = trajectories.cell(to).is_some();
    if taken {
        return;
    }
    let v = trajectories.vector(t.traj_at(h.a, first.y, first.x));
    let y = clip_sum(v.y, h.mv.y, h.bound);
    let x = clip_sum(v.x, h.mv.x, h.bound);
    let sum = Mv { y, x };
    trajectories.put_vector(to, sum);
    enter_end(maps, t, h.b, first, first, sum);
}

// The way back in a map cell, none where it is empty: where it holds the mark.
fn map_cell(maps: &Pairs<'_, i8>, at: usize) -> Option<Mv>
    requires { IsWithinPairs maps.now at }
    ensures { result ≡ map_entry maps.now at }
{
    let m = maps.packed(at);
    (m != QMv::MARK).then_some(Mv {
        y: i32::from(m.y),
        x: i32::from(m.x),
    })
}

// Where the map cell m of plane k leads, if it is one of the half's trajectories. col is the block
// of the half's column.
fn led_to(t: &Tile, m: Mv, k: usize, h: &Half, col: usize) -> Option<Place>
    requires plane { k < 3 }
    requires some { spec.is_no_map m ≡ false }
    requires low { IsLow h.now.at }
    requires block { col ≡ h.now.at.x / t.now.block }
    ensures { result ≡ led_to (geometry t.now) m k h.now }
{
    let there = tile::is_there(h.at.y, m.y) & tile::is_there(h.at.x, m.x);
    let y = tile::moved_by(h.at.y, m.y);
    let x = tile::moved_by(h.at.x, m.x);
    let block = t.in_blocks(x) + 1 == col + k;
    let near = there & block & t.near_col(x, h.at.x) & t.near_col(x, h.origin.x);
    let leads = near & t.same_rows(y, h.at.y) & t.same_rows(y, h.origin.y);
    leads.then_some(Place { y, x })
}

// One plane of a half. row and col are the place of the half's cell and its block, the same for
// every plane: found once for the three. They are no part of the half, whose numbers are the definition's.
fn follow(
    trajectories: &mut Pairs<'_, i32>,
    maps: &mut Pairs<'_, i8>,
    t: &Tile,
    h: &Half,
    k: usize,
    row: usize,
    col: usize,
)
    requires half { InStore (geometry t.now) h.now }
    requires plane { k < 3 }
    requires row { row ≡ place (geometry t.now) h.now.at.y h.now.at.x }
    requires block { col ≡ h.now.at.x / t.now.block }
    requires trajectories { IsTrajHeld (geometry t.now) trajectories.old }
    requires maps { IsMapHeld (geometry t.now) maps.old }
    ensures same_trajectories { IsSamePairs trajectories.new trajectories.old }
    ensures same_maps { IsSamePairs maps.new maps.old }
    ensures stored { (s : Store) → stored_trajs s trajectories.new maps.new
        ≡ run (owns (geometry t.now)) (followed (geometry t.now) h.now k) (stored_trajs s trajectories.old maps.old) }
{
    if !t.own_block(col + k) {
        return;
    }
    let Some(m) = map_cell(maps, t.map_in(k, h.a, row)) else {
        return;
    };
    let Some(first) = led_to(t, m, k, h, col) else {
        return;
    };
    extend(trajectories, maps, t, h, first);
}

// The three planes of a half.
fn follow_all(trajectories: &mut Pairs<'_, i32>, maps: &mut Pairs<'_, i8>, t: &Tile, h: &Half)
    requires half { InStore (geometry t.now) h.now }
    requires trajectories { IsTrajHeld (geometry t.now) trajectories.old }
    requires maps { IsMapHeld (geometry t.now) maps.old }
    ensures same_trajectories { IsSamePairs trajectories.new trajectories.old }
    ensures same_maps { IsSamePairs maps.new maps.old }
    ensures stored { (s : Store) → stored_trajs s trajectories.new maps.new
        ≡ run (owns (geometry t.now)) (each 0 3 (followed (geometry t.now) h.now)) (stored_trajs s trajectories.old maps.old) }
{
    let row = t.place_at(h.at.y, h.at.x);
    let col = t.in_blocks(h.at.x);
    // Planes by their numbers: a place is found of them, and all stand in the same lists.
    for k in 0..3 {
        follow(trajectories, maps, t, h, k, row, col);
    }
}

// Does mv end in the frame?
#[tactic(auto, unfolding(traj::specs::Traj::in_frame))]
fn in_frame(t: &Tile, from: Place, mv: Mv) -> bool
    requires { IsLow from }
    ensures { result ≡ spec.in_frame (geometry t.now) from.y from.x mv }
{
    let dy = tile::cells_of(mv.y);
    let dx = tile::cells_of(mv.x);
    let there = tile::is_there(from.y, dy) & tile::is_there(from.x, dx);
    let y = tile::moved_by(from.y, dy);
    let x = tile::moved_by(from.x, dx);
    there & (y < t.high) & (x < t.wide)
}

/// The vector turned round.
pub fn turned(v: Mv) -> Mv
    requires y { Within 65535 v.y }
    requires x { Within 65535 v.x }
    ensures { result ≡ spec.turned v }
{
    Mv { y: -v.y, x: -v.x }
}

/// Carries slot `a`'s trajectories through `at` on by `mv` to slot `b`, and back from where `mv`
/// ends (check_traj_intersect).
pub fn check_traj_intersect(
    trajectories: &mut Pairs<'_, i32>,
    maps: &mut Pairs<'_, i8>,
    t: &Tile,
    a: usize,
    b: usize,
    at: Place,
    mv: Mv,
)
    requires from_slot { a < 7 }
    requires to_slot { b < 7 }
    requires row { at.y < 8192 }
    requires column { at.x < t.now.stride }
    requires y { Within 65535 mv.y }
    requires x { Within 65535 mv.x }
    requires trajectories { IsTrajHeld (geometry t.now) trajectories.old }
    requires maps { IsMapHeld (geometry t.now) maps.old }
    ensures same_trajectories { IsSamePairs trajectories.new trajectories.old }
    ensures same_maps { IsSamePairs maps.new maps.old }
    ensures stored { (s : Store) → stored_trajs s trajectories.new maps.new
        ≡ run (owns (geometry t.now)) (spec.check_traj_intersect (geometry t.now) a b at.y at.x mv) (stored_trajs s trajectories.old maps.old) }
{
    let first = Half {
        bound: 2047,
        a,
        b,
        at,
        origin: at,
        mv,
    };
    follow_all(trajectories, maps, t, &first);
    if !in_frame(t, at, mv) {
        return;
    }
    let end = end_of(t, at, mv);
    let back = turned(mv);
    let second = Half {
        bound: 65535,
        a: b,
        b: a,
        at: end,
        origin: at,
        mv: back,
    };
    follow_all(trajectories, maps, t, &second);
}
