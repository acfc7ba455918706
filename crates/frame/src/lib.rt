// The setup of a frame: init_frame.
#![tactic(auto)]

ghost use Rattle.std.specs.Prelude.{◌≡◌, ◌≤◌, ◌<◌, ◌||◌, length};
ghost use Rattle.levels.specs.Answer.{refused_if};
ghost use Rattle.picks.specs.Picks.{Slots};
ghost use Rattle.refs.specs.Refs.{signs, diffs};
ghost use Rattle.frame.specs.Frame.{leading, started, tip_pick, tip_add, with_tip, picked, Fine, source_at, filled, slot_of, sources_of, tip_diff, in_byte, tip_of, looks_at_tip, not_in_use, bad_tip, bad_size, bad_step, bad_superblock, frame_of, zero_frame, no_source, no_sources, used, mask_of, says_setup, setup_of};

use entry::Source;
use levels::{Refusal, Slot, refused_if};
use picks::{FrameHints, Hints, MfmvRef, Picks, Pocs, Sorted};
use std::array;

/// The sources, and the mask of the slots that are used.
// `n_mfmvs` beside the list of four: the record is C's, which has no list that knows its length.
#[repr(C)]
#[derive(Clone, Copy)]
pub struct Sources {
    pub mfmv: [Source; 4],
    pub n_mfmvs: usize,
    pub mfmv_mask: u8,
}

/// The frame's own pair of references: their distance, and a factor for each.
#[repr(C)]
#[derive(Clone, Copy)]
pub struct Tip {
    pub delta: i8,
    pub sf0: i32,
    pub sf1: i32,
}

impl Tip {
    /// That of a frame with TIP mode 0: zeros.
    pub const NONE: Tip = Tip {
        delta: 0,
        sf0: 0,
        sf1: 0,
    };
}

/// The values of the sequence's and the frame's header that a setup is made of. Any numbers.
// Numbers as a header states them, and no enums or Options: refusals 5, 6 and 8 are for those that mean nothing.
#[derive(Clone, Copy)]
pub struct Header {
    pub width: u32,
    pub height: u32,
    /// The superblock code.
    pub sb128: u8,
    pub tmvp_sample_step: u8,
    /// The sequence's TIP switch.
    pub tip: bool,
    pub use_ref_frame_mvs: bool,
    pub has_bothside_refs: bool,
    pub tip_frame_mode: u8,
    /// The TIP pair: two slots, or -1.
    pub tip0: i8,
    pub tip1: i8,
    /// Whether a slot's plane is present.
    pub rp_ref: [bool; 7],
    pub pocs: Pocs,
}

/// The setup record.
// `n_refs` beside the lists of seven: the record is C's, as that of the sources is.
#[repr(C)]
#[derive(Clone, Copy)]
pub struct Frame {
    pub width: u32,
    pub height: u32,
    pub sb128: u8,
    pub tmvp_sample_step: u8,
    pub n_refs: usize,
    pub tip_frame_mode: u8,
    pub tip0: i8,
    pub tip1: i8,
    pub rp_ref: [bool; 7],
    pub ref_sign: [bool; 7],
    pub pocdiff: [i8; 7],
    pub abspocdiff: [u8; 7],
    pub ref_flip: u64,
    pub tip: Tip,
    /// Whether there are sources.
    pub use_ref_frame_mvs: bool,
    pub sources: Sources,
}

// The TIP pair of the header.
#[derive(Clone, Copy)]
struct TipPair {
    first: Slot,
    second: Slot,
    ghost first_low: { first.0 < 7 },
    ghost second_low: { second.0 < 7 },
}

// The order hints of an accepted header, with what is found of each slot in use: its sign, and its clipped difference.
#[derive(Clone, Copy)]
struct Compared {
    hints: FrameHints,
    sign: [bool; 7],
    diff: [i8; 7],
    ghost signs: { sign ≡ signs hints.hints.pocs },
    ghost diffs: { diff ≡ diffs hints.hints.pocs },
}

impl Compared {
    fn of(hints: FrameHints) -> Compared
        ensures { result.hints ≡ hints }
    {
        let sign = refs::all_signs(&hints.hints);
        let diff = refs::all_diffs(&hints.hints);
        Compared { hints, sign, diff }
    }
}

// What stands in a list of picks where none is.
const NO_PICK: MfmvRef = MfmvRef {
    reference: Slot(0),
    tgt: Some(Slot(0)),
    dir: 0,
};

// How many of the sorted slots lead with their sign set.
fn first_later(sign: &[bool; 7], order: &[Slot]) -> usize
    requires { Slots order.now }
    ensures value { result ≡ leading sign.now order.now (length order.now) 0 }
    ensures within { result ≤ length order.now }
{
    let later = order.iter().position(
        |s|
            requires { s.now.0 < 7 }
        { !sign[s.index()] },
    );
    later.unwrap_or(order.len())
}

// No source yet, and the slots with no plane are taken.
fn start(present: &[bool; 7], n: usize) -> Picks
    ensures { result ≡ started present.now n }
{
    let taken: [bool; 14] = array::from_fn(|k| k / 2 < n && !present[k / 2]);
    Picks {
        list: [NO_PICK; 4],
        count: 0,
        taken,
    }
}

// The source s with the target t.
fn tip_pick(h: &Hints, s: Slot, t: Slot) -> MfmvRef
    requires source { s.0 < 7 }
    requires target { t.0 < 7 }
    ensures value { result ≡ tip_pick h.now.pocs s t }
    ensures direction { result.dir < 2 }
{
    MfmvRef {
        reference: s,
        tgt: Some(t),
        dir: u8::from(h.diff(h.hint(s), h.hint(t)) < 0),
    }
}

// Of the pair, the slot that stands later in the order is the source.
#[tactic(auto, unfolding(crate::specs::Frame::tip_add))]
fn tip_add(h: &Hints, place: &[u8; 7], pair: TipPair, p: &mut Picks)
    requires { p.old.count < 4 }
    ensures { p.new ≡ tip_add h.now.pocs place.now pair.first pair.second p.old }
{
    let TipPair {
        first: a,
        second: b,
    } = pair;
    if place[b.index()] < place[a.index()] {
        p.push(tip_pick(h, a, b));
    } else {
        p.push(tip_pick(h, b, a));
    }
}

// The TIP pair, where one of the two is earlier than the frame.
#[tactic(auto, unfolding(crate::specs::Frame::with_tip))]
fn tip_source(c: &Compared, on: bool, place: &[u8; 7], pair: TipPair, p: &mut Picks)
    requires { p.old.count < 4 }
    ensures { p.new ≡ with_tip c.now.hints.hints.pocs on c.now.sign place.now pair.first pair.second p.old }
{
    if on && (c.sign[pair.first.index()] || c.sign[pair.second.index()]) {
        tip_add(&c.hints.hints, place, pair, p);
    }
}

// All sources, in the order in which they are picked.
fn pick_sources(c: &Compared, present: &[bool; 7], tip: bool, pair: TipPair) -> Picks
    ensures { result ≡ picked c.now.hints.hints.pocs present.now tip pair.first pair.second }
{
    let pocs = &c.hints.hints.pocs;
    let n = pocs.n_refs;
    let order = rank::sort_slots(&c.diff, n);
    let first = first_later(&c.sign, &order[..n]);
    let sorted = Sorted { order, first };
    let links = refs::links_of(pocs);
    let o = topo::topo_order(&links, n);
    let mut p = start(present, n);
    tip_source(c, tip, &o.place, pair, &mut p);
    p.pick_neighbours(&c.hints, &sorted);
    p.pick_nearest(&sorted);
    p.pick_rest(&c.diff, &o.list[..o.count]);
    p
}

fn no_source() -> Source
    ensures { result ≡ no_source }
{
    entry::blank(&NO_PICK, 0)
}

fn no_sources(n: usize, mask: u8) -> Sources
    ensures { result ≡ no_sources n mask }
{
    Sources {
        mfmv: [no_source(); 4],
        n_mfmvs: n,
        mfmv_mask: mask,
    }
}

// 1 where slot k is taken in either direction.
fn used_bit(taken: &[bool; 14], k: usize) -> u8
    requires { k < 7 }
    ensures value { result ≡ used taken.now k }
    ensures bit { result ≤ 1 }
{
    u8::from(taken[2 * k] || taken[2 * k + 1])
}

// The mask of the slots that are taken.
#[tactic(auto, unfolding(crate::specs::Frame::mask_of))]
fn used_mask(taken: &[bool; 14]) -> u8
    ensures { result ≡ mask_of taken.now }
{
    // By number: a slot's number is its bit's place.
    let mut mask = 0;
    for k in 0..7 {
        mask += used_bit(taken, k) << k;
    }
    mask
}

// The source at place i, zeros past those that are picked.
fn source_at(h: &Hints, p: &Picks, i: usize) -> Source
    requires fine { Fine p.now }
    requires place { i < 4 }
    ensures { result ≡ source_at h.now.pocs p.now i }
{
    if i < p.count {
        entry::source_of(h, &p.list[i])
    } else {
        no_source()
    }
}

// The sources that are picked, with their entries.
fn fill_sources(h: &Hints, p: &Picks) -> Sources
    requires { Fine p.now }
    ensures { result ≡ filled h.now.pocs p.now }
{
    let mfmv: [Source; 4] = array::from_fn(
        |i|
            requires fine { Fine p.now }
            requires place { i < 4 }
            ensures { result ≡ source_at h.entry.now.pocs p.entry.now i }
        { source_at(h, p, i) },
    );
    Sources {
        mfmv,
        n_mfmvs: p.count,
        mfmv_mask: used_mask(&p.taken),
    }
}

// A TIP slot as a slot; one out of range is never looked at.
// No Option: refusal 8 has tested the pair where it is looked at, and each of the two places that look at it tests the header's switch itself. With an
// Option each would have one more case, which no header comes to.
#[tactic(auto, unfolding(crate::specs::Frame::slot_of))]
fn tip_slot(t: i8) -> Slot
    ensures value { result ≡ slot_of t }
    ensures low { result.0 < 7 }
{
    if t < 0 || 6 < t {
        Slot(0)
    } else {
        Slot(t.cast_unsigned())
    }
}

fn tip_pair(f: &Header) -> TipPair
    ensures first { result.first ≡ slot_of f.now.tip0 }
    ensures second { result.second ≡ slot_of f.now.tip1 }
{
    TipPair {
        first: tip_slot(f.tip0),
        second: tip_slot(f.tip1),
    }
}

fn sources_of(f: &Header, c: &Compared, pair: TipPair) -> Sources
    requires hints { c.now.hints.hints.pocs ≡ f.now.pocs }
    requires first { pair.first ≡ slot_of f.now.tip0 }
    requires second { pair.second ≡ slot_of f.now.tip1 }
    ensures { result ≡ sources_of f.now }
{
    let pocs = &c.hints.hints.pocs;
    if !f.use_ref_frame_mvs || pocs.nbits == 0 || pocs.n_refs < 2 {
        return no_sources(0, 0);
    }
    let p = pick_sources(c, &f.rp_ref, f.tip, pair);
    fill_sources(&c.hints.hints, &p)
}

#[tactic(auto, unfolding(crate::specs::Frame::tip_diff))]
fn tip_diff(h: &Hints, both: bool, pair: TipPair) -> i32
    ensures { result ≡ tip_diff h.now.pocs both pair.first pair.second }
{
    let p = h.hint(pair.first);
    let q = h.hint(pair.second);
    if both { h.diff(q, p) } else { h.diff(p, q) }
}

// A distance in a signed byte: 128 becomes -128.
fn in_byte(m: u32) -> i8
    ensures { result ≡ in_byte m }
{
    i8::try_from(m).unwrap_or(-128)
}

fn tip_of(c: &Compared, mode: u8, both: bool, pair: TipPair) -> Tip
    ensures { result ≡ tip_of c.now.hints.hints.pocs mode both pair.first pair.second }
{
    if mode == 0 {
        return Tip::NONE;
    }
    let d = tip_diff(&c.hints.hints, both, pair);
    Tip {
        delta: in_byte(d.unsigned_abs()),
        sf0: entry::ratio(i32::from(c.diff[pair.first.index()]), d),
        sf1: entry::ratio(i32::from(c.diff[pair.second.index()]), d),
    }
}

// Does the setup look at the TIP pair?
#[tactic(auto, unfolding(crate::specs::Frame::looks_at_tip))]
fn looks_at_tip(f: &Header) -> bool
    ensures { result ≡ looks_at_tip f.now }
{
    f.tip_frame_mode != 0
        || (f.tip && f.use_ref_frame_mvs && f.pocs.nbits != 0 && 1 < f.pocs.n_refs)
}

#[tactic(auto, unfolding(crate::specs::Frame::not_in_use))]
fn not_in_use(f: &Header, t: i8) -> bool
    ensures { result ≡ not_in_use f.now t }
{
    !usize::try_from(t).is_ok_and(|slot| slot < f.pocs.n_refs)
}

/// Is a width or a height not 1 to 65,536?
#[tactic(auto, unfolding(crate::specs::Frame::bad_size))]
pub fn bad_size(n: u32) -> bool
    ensures { result ≡ bad_size n }
{
    n == 0 || 65536 < n
}

// Refusal 5.
#[tactic(auto, unfolding(crate::specs::Frame::bad_superblock))]
fn check_superblock(f: &Header) -> Result<(), Refusal>
    ensures { result ≡ refused_if (bad_superblock f.now.sb128) Refusal.BadSuperblock }
{
    refused_if(2 < f.sb128, Refusal::BadSuperblock)
}

// Refusal 6.
#[tactic(auto, unfolding(crate::specs::Frame::bad_step))]
fn check_step(f: &Header) -> Result<(), Refusal>
    ensures { result ≡ refused_if (bad_step f.now.tmvp_sample_step) Refusal.BadStep }
{
    let bad = f.tmvp_sample_step != 1 && f.tmvp_sample_step != 2;
    refused_if(bad, Refusal::BadStep)
}

// Refusal 7.
fn check_size(f: &Header) -> Result<(), Refusal>
    ensures { result ≡ refused_if (bad_size f.now.width || bad_size f.now.height) Refusal.BadSize }
{
    refused_if(bad_size(f.width) || bad_size(f.height), Refusal::BadSize)
}

// Refusal 8.
#[tactic(auto, unfolding(crate::specs::Frame::bad_tip))]
fn check_tip(f: &Header) -> Result<(), Refusal>
    ensures { result ≡ refused_if (bad_tip f.now) Refusal.BadTipSlot }
{
    let bad = looks_at_tip(f) && (not_in_use(f, f.tip0) || not_in_use(f, f.tip1));
    refused_if(bad, Refusal::BadTipSlot)
}

fn frame_of(f: &Header, h: &FrameHints) -> Frame
    requires { h.now.hints.pocs ≡ f.now.pocs }
    ensures { result ≡ frame_of f.now }
{
    let hints = &h.hints;
    let c = Compared::of(*h);
    let pair = tip_pair(f);
    let sources = sources_of(f, &c, pair);
    Frame {
        width: f.width,
        height: f.height,
        sb128: f.sb128,
        tmvp_sample_step: f.tmvp_sample_step,
        n_refs: hints.pocs.n_refs,
        tip_frame_mode: f.tip_frame_mode,
        tip0: f.tip0,
        tip1: f.tip1,
        rp_ref: f.rp_ref,
        ref_sign: c.sign,
        pocdiff: c.diff,
        abspocdiff: refs::all_abs_diffs(hints),
        ref_flip: refs::flip_mask(h, &c.sign),
        tip: tip_of(&c, f.tip_frame_mode, f.has_bothside_refs, pair),
        use_ref_frame_mvs: 0 < sources.n_mfmvs,
        sources,
    }
}

/// The record of a refused header, all zeros, for C.
pub fn zero_frame() -> Frame
    ensures { result ≡ zero_frame }
{
    Frame {
        width: 0,
        height: 0,
        sb128: 0,
        tmvp_sample_step: 0,
        n_refs: 0,
        tip_frame_mode: 0,
        tip0: 0,
        tip1: 0,
        rp_ref: [false; 7],
        ref_sign: [false; 7],
        pocdiff: [0; 7],
        abspocdiff: [0; 7],
        ref_flip: 0,
        tip: Tip::NONE,
        use_ref_frame_mvs: false,
        sources: no_sources(0, 0),
    }
}

/// The setup of a frame, or the first of the refusals 3 to 8 that holds.
pub fn init_frame(f: &Header) -> Result<Frame, Refusal>
    ensures { says_setup result ≡ setup_of f.now }
{
    let h = FrameHints::try_from(f.pocs)?;
    check_superblock(f)?;
    check_step(f)?;
    check_size(f)?;
    check_tip(f)?;
    Ok(frame_of(f, &h))
}
