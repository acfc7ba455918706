// Lists of vectors as a load is lent them. The store of a load, programs over it and lists of calls stand in specs/.
#![tactic(auto)]

ghost use Rattle.std.specs.Prelude.{◌≡◌, ◌≤◌, ◌<◌, Some, pos, length, replicate, get_or, slice_get, set};
ghost use Rattle.levels.specs.declared.Mv.{Mv};
ghost use Rattle.store.specs.Store.{Store, trajs, maps, vec, wr};
ghost use Rattle.store.specs.Lent.{IsWithinPairs, IsSamePairs, filled, held, with_trajs, with_maps};

use levels::{Mv, QMv};

/// Two lists of one length and type, lent together: the y and the x of each vector. Trajectories
/// (rp_traj) are of `i32`, maps (rp_map) of `i8`.
// No ghost field says that the lists are long enough for a tile: the type would carry the tile's numbers, and what one of several calls leaves would have to be rewritten along them before the next. So it is asked for (`IsTrajHeld`, `IsMapHeld` of tile).
// Trajectories and maps are passed as two parameters: a struct that holds both by value keeps at its return only the lists' lengths, one that holds references takes a lifetime for each of them and of their lists.
#[derive(Drop)]
pub struct Pairs<'a, T> {
    /// The vectors' y.
    pub y: &'a mut [T],
    /// Their x.
    pub x: &'a mut [T],
}

// std's `fill` clones its value, and the clone of a type of which only `Copy` is known need not be equal to it.
fn set_all<T: Copy>(line: &mut [T], v: T)
    ensures { line.new ≡ replicate (length line.old) v }
{
    for cell in line.iter_mut() {
        *cell = v;
    }
}

/// The vector at a place of two lists, its y and its x.
// Two lists and no struct, here and in `cell_at`: the field's and the trajectories' stand in structs of their own, of which a third would
// be made for each call.
pub fn vector_at(y: &[i32], x: &[i32], at: usize) -> Mv
    requires y { at < length y.now }
    requires x { at < length x.now }
    ensures { result ≡ vec (get_or y.now at (pos 0)) (get_or x.now at (pos 0)) }
{
    Mv { y: y[at], x: x[at] }
}

/// The vector at a place of two lists, none where it is empty.
pub fn cell_at(y: &[i32], x: &[i32], at: usize) -> Option<Mv>
    requires y { at < length y.now }
    requires x { at < length x.now }
    ensures { result ≡ held (vec (get_or y.now at (pos 0)) (get_or x.now at (pos 0))) }
{
    let v = vector_at(y, x, at);
    (!mv::is_empty(v)).then_some(v)
}

// y and x apart, where the lists may be of either type: a vector is an Mv, of `i32`, or a QMv, of `i8`.
impl<'a, T: Copy> Pairs<'a, T> {
    /// The y and x at a place.
    pub fn at(&self, i: usize) -> (T, T)
        requires { IsWithinPairs self.now i }
        ensures y { slice_get self.now.y.now i ≡ Some result.0 }
        ensures x { slice_get self.now.x.now i ≡ Some result.1 }
    {
        (self.y[i], self.x[i])
    }

    /// Writes the y and x of a place.
    pub fn put(&mut self, i: usize, y: T, x: T)
        requires { IsWithinPairs self.old i }
        ensures same_borrow { IsSamePairs self.new self.old }
        ensures y { self.new.y.now ≡ set self.old.y.now i y }
        ensures x { self.new.x.now ≡ set self.old.x.now i x }
    {
        self.y[i] = y;
        self.x[i] = x;
    }

    /// One value from place `a` up to `b`.
    pub fn fill(&mut self, a: usize, b: usize, y: T, x: T)
        requires order { a ≤ b }
        requires y { b ≤ length self.old.y.now }
        requires x { b ≤ length self.old.x.now }
        ensures same_borrow { IsSamePairs self.new self.old }
        ensures y { self.new.y.now ≡ filled y a b self.old.y.now }
        ensures x { self.new.x.now ≡ filled x a b self.old.x.now }
    {
        set_all(&mut self.y[a..b], y);
        set_all(&mut self.x[a..b], x);
    }
}

impl<'a> Pairs<'a, i32> {
    /// The vector at a place.
    pub fn vector(&self, i: usize) -> Mv
        requires { IsWithinPairs self.now i }
        ensures { result ≡ vec (get_or self.now.y.now i (pos 0)) (get_or self.now.x.now i (pos 0)) }
    {
        vector_at(self.y, self.x, i)
    }

    /// The vector at a place, none where it is empty.
    pub fn cell(&self, i: usize) -> Option<Mv>
        requires { IsWithinPairs self.now i }
        ensures { result ≡ held (vec (get_or self.now.y.now i (pos 0)) (get_or self.now.x.now i (pos 0))) }
    {
        cell_at(self.y, self.x, i)
    }

    /// Writes a vector.
    pub fn put_vector(&mut self, i: usize, v: Mv)
        requires { IsWithinPairs self.old i }
        ensures same_borrow { IsSamePairs self.new self.old }
        ensures stored { (s : Store) → with_trajs s self.new ≡ wr (with_trajs s self.old) trajs i v }
    {
        self.put(i, v.y, v.x);
    }
}

impl<'a> Pairs<'a, i8> {
    /// The packed vector at a place.
    pub fn packed(&self, i: usize) -> QMv
        requires { IsWithinPairs self.now i }
        ensures y { result.y ≡ get_or self.now.y.now i (pos 0) }
        ensures x { result.x ≡ get_or self.now.x.now i (pos 0) }
    {
        let (y, x) = self.at(i);
        QMv { y, x }
    }

    /// Writes a packed vector.
    pub fn put_packed(&mut self, i: usize, v: QMv)
        requires { IsWithinPairs self.old i }
        ensures same_borrow { IsSamePairs self.new self.old }
        ensures stored { (s : Store) → with_maps s self.new ≡ wr (with_maps s self.old) maps i (vec v.y v.x) }
    {
        let QMv { y, x } = v;
        self.put(i, y, x);
    }
}
