// One source's entries.
#![tactic(auto)]

ghost use Rattle.std.specs.Prelude.{◌≡◌, ◌≤◌, ◌<◌, nat_abs, IfSome};
ghost use Rattle.entry.specs.Entry.{found, found_slot, ratio_z, near_z, ref2ref_of, ref2idx_of, part_of, factors_of, target_byte, blank_of, source_of};

use levels::{OrderHint, Slot};
use picks::{Hints, MfmvRef, Saved};

/// The first of the first n slots with the hint x.
// The seven and how many count, and no slice of those (tried): of a list in a lent struct, as `Pocs` is, the check knows no length.
pub fn find_hint(hints: &[OrderHint; 7], x: OrderHint, n: usize) -> Option<usize>
    requires { n ≤ 7 }
    ensures value { result ≡ found hints.now x n 0 }
    ensures below { IfSome result (λ k. k < n) }
{
    hints[..n].iter().position(|hint| *hint == x)
}

// The same among all seven, -1 if there is none, as C's record has it.
#[tactic(auto, unfolding(crate::specs::Entry::found_slot))]
fn slot_of(hints: &[OrderHint; 7], x: OrderHint) -> i8
    ensures { result ≡ found_slot hints.now x }
{
    // `as`, as no From goes from usize to i8: k is below 7.
    find_hint(hints, x, 7).map_or(-1, |k| k as i8)
}

/// a / b as a multiple of 2^-14, both kept within 31: of the table of reciprocals the part that get_mv_projection takes.
pub fn ratio(a: i32, b: i32) -> i32
    ensures { result ≡ ratio_z a b }
{
    // Of magnitudes, as the definition: by `clamp` and `signum` the sign would come of two factors.
    // `as` here and below, as no From goes from u32 to usize or i32: 31 at most, and 507,904 at most.
    let size = a.unsigned_abs().min(31)
        * u32::from(mv::div_mult(b.unsigned_abs().min(31) as usize));
    if (a < 0) == (b < 0) {
        size as i32
    } else {
        -(size as i32)
    }
}

// A difference of 31 at most is kept, another is 0.
fn near(d: i32) -> i8
    ensures { result ≡ near_z d }
{
    // `as`, as no From goes from i32 to i8: d is 31 at most where it is kept.
    if (-31..=31).contains(&d) { d as i8 } else { 0 }
}

// From each reference that was saved with a slot to the slot, whose hint is a.
fn ref2ref_of(h: &Hints, a: OrderHint, saved: &Saved) -> [i8; 7]
    ensures { result ≡ ref2ref_of h.now.pocs.nbits a saved.now.ref_poc }
{
    saved.ref_poc.map(|hint| near(h.diff(a, hint)))
}

// The slot with the hint of each of those references.
fn ref2idx_of(hints: &[OrderHint; 7], saved: &Saved) -> [i8; 7]
    ensures { result ≡ ref2idx_of hints.now saved.now.ref_poc }
{
    saved.ref_poc.map(|hint| slot_of(hints, hint))
}

// The part of the difference d that a factor is for: what is left after cur, or cur.
// Told by a switch, and no closure: its contract has the bounds under which neither overflows.
fn part(cur: i32, d: i32, rest: bool) -> i32
    requires current { nat_abs cur ≤ 31 }
    requires difference { nat_abs d ≤ 128 }
    ensures { result ≡ part_of rest cur d }
{
    if rest { d - cur } else { cur }
}

// For each difference the factor of that part over it.
fn factors(cur: i32, ref2ref: &[i8; 7], rest: bool) -> [i32; 7]
    requires { nat_abs cur ≤ 31 }
    ensures { result ≡ factors_of cur ref2ref.now rest }
{
    ref2ref.map(|d| {
        let d = i32::from(d);
        ratio(part(cur, d, rest), d)
    })
}

/// A source of the setup record: the slot, its target and its direction, the difference from the frame, and the entries of each of the slot's references. C's record: any bytes.
#[repr(C)]
#[derive(Clone, Copy)]
pub struct Source {
    pub reference: Slot,
    pub tgt: i8,
    pub dir: u8,
    pub ref2cur: i8,
    pub ref2ref: [i8; 7],
    pub ref2idx: [i8; 7],
    pub ref2sf0: [i32; 7],
    pub ref2sf1: [i32; 7],
}

// A target as C's record has it: the slot's number in a signed byte, -1 for any.
fn target_byte(tgt: Option<Slot>) -> i8
    ensures { result ≡ target_byte tgt }
{
    tgt.map_or(-1, |t| t.0.cast_signed())
}

/// The source p with no entries, at a difference from the frame.
pub fn blank(p: &MfmvRef, ref2cur: i8) -> Source
    ensures { result ≡ blank_of p.now ref2cur }
{
    Source {
        reference: p.reference,
        tgt: target_byte(p.tgt),
        dir: p.dir,
        ref2cur,
        ref2ref: [0; 7],
        ref2idx: [0; 7],
        ref2sf0: [0; 7],
        ref2sf1: [0; 7],
    }
}

/// The source p with its entries; without them where it is more than 31 from the frame.
pub fn source_of(h: &Hints, p: &MfmvRef) -> Source
    requires { p.now.reference.0 < 7 }
    ensures { result ≡ source_of h.now.pocs p.now }
{
    let hint = h.hint(p.reference);
    let cur = h.diff(hint, h.pocs.poc);
    if 31 < cur.unsigned_abs() {
        return blank(p, -32);
    }
    let saved = &h.pocs.saved[p.reference.index()];
    let ref2ref = ref2ref_of(h, hint, saved);
    Source {
        reference: p.reference,
        tgt: target_byte(p.tgt),
        dir: p.dir,
        // `as`, as no From goes from i32 to i8: cur is 31 at most.
        ref2cur: cur as i8,
        ref2ref,
        ref2idx: ref2idx_of(&h.pocs.ref_poc, saved),
        ref2sf0: factors(cur, &ref2ref, false),
        ref2sf1: factors(cur, &ref2ref, true),
    }
}
