// What the setup keeps of each slot in use: sign, clipped difference, flip mask, and the links that
// the dependency order follows.
#![tactic(auto)]

ghost use Rattle.std.specs.Prelude.{◌≡◌, ◌≤◌, ◌<◌, pos, nat_abs};
ghost use Rattle.std.specs.Int.Signed.{lt_z};
ghost use Rattle.env.specs.Hints.{hint_diff};
ghost use Rattle.refs.specs.Refs.{is_earlier, clipped, signs, diffs, abs_diffs, link_in, links_from, links_of, flips_of, flip_row, flip_mask};

use levels::{OrderHint, Slot};
use picks::{FrameHints, Hints, Pocs, Saved};
use std::array;

/// Is slot i earlier than the frame: ref_sign?
#[tactic(auto, unfolding(crate::specs::Refs::is_earlier))]
pub fn is_earlier(h: &Hints, i: usize) -> bool
    requires { i < 7 }
    ensures { result ≡ is_earlier h.now.pocs i }
{
    h.diff(h.pocs.ref_poc[i], h.pocs.poc) < 0
}

/// The clipped difference from slot i to the frame: pocdiff.
pub fn clipped_diff(h: &Hints, i: usize) -> i8
    requires { i < 7 }
    ensures { result ≡ clipped h.now.pocs i }
{
    // `as`, as no From goes from i32 to i8.
    intops::iclip(h.diff(h.pocs.poc, h.pocs.ref_poc[i]), -31, 31) as i8
}

/// Its magnitude: abspocdiff.
pub fn abs_diff(h: &Hints, i: usize) -> u8
    requires { i < 7 }
    ensures { result ≡ nat_abs (clipped h.now.pocs i) }
{
    clipped_diff(h, i).unsigned_abs()
}

/// The signs of the slots in use; the others are off.
// This, all_diffs, all_abs_diffs and links_from are four: each is one expression, and a common function would take it as a closure, whose clauses each would state.
pub fn all_signs(h: &Hints) -> [bool; 7]
    ensures { result ≡ signs h.now.pocs }
{
    array::from_fn(|i| i < h.pocs.n_refs && is_earlier(h, i))
}

/// The clipped differences of the slots in use; the others are 0.
pub fn all_diffs(h: &Hints) -> [i8; 7]
    ensures { result ≡ diffs h.now.pocs }
{
    array::from_fn(|i| {
        if i < h.pocs.n_refs {
            clipped_diff(h, i)
        } else {
            0
        }
    })
}

/// The magnitudes of the clipped differences of the slots in use; the others are 0.
pub fn all_abs_diffs(h: &Hints) -> [u8; 7]
    ensures { result ≡ abs_diffs h.now.pocs }
{
    array::from_fn(|i| if i < h.pocs.n_refs { abs_diff(h, i) } else { 0 })
}

/// The slot in use that reference n of the hints saved with a slot is: refref2curref_idx.
// It and the links ask for `n_refs ≤ 7`, and take no `FrameHints`, which asks for hints of at most 8 bits, too: links are found of any.
#[tactic(auto, unfolding(crate::specs::Refs::link_in))]
pub fn link_of(pocs: &Pocs, saved: &Saved, n: usize) -> Option<Slot>
    requires slots { pocs.now.n_refs ≤ 7 }
    requires reference { n < 7 }
    ensures { result ≡ link_in pocs.now saved.now n }
{
    if saved.refcnt == 0 {
        return None;
    }
    let refs = pocs.n_refs;
    entry::find_hint(&pocs.ref_poc, saved.ref_poc[n], refs).map(Slot::from_index)
}

// The links of slot i, none where it is not in use.
fn links_from(pocs: &Pocs, i: usize) -> [Option<Slot>; 7]
    requires slots { pocs.now.n_refs ≤ 7 }
    requires slot { i < 7 }
    ensures { result ≡ links_from pocs.now i }
{
    array::from_fn(|n| {
        if i < pocs.n_refs {
            link_of(pocs, &pocs.saved[i], n)
        } else {
            None
        }
    })
}

/// The links of the slots in use, seven to a slot; the others have none.
pub fn links_of(pocs: &Pocs) -> [[Option<Slot>; 7]; 7]
    requires slots { pocs.now.n_refs ≤ 7 }
    ensures { result ≡ links_of pocs.now }
{
    array::from_fn(
        |i|
            requires slots { pocs.now.n_refs ≤ 7 }
            requires slot { i < 7 }
            ensures { result ≡ links_from pocs.entry.now i }
        { links_from(pocs, i) },
    )
}

/// Whether slot n is flipped for slot i, whose signs are x and y and whose hints are a and b.
pub fn flip(h: &Hints, x: bool, y: bool, a: OrderHint, b: OrderHint) -> bool
    ensures { result ≡ flips_of x y (lt_z (hint_diff h.now.pocs.nbits a b) (pos 0)) }
{
    let before = h.diff(a, b) < 0;
    (x & y & before) | (!x & (y | before))
}

/// Row i of the flip mask: bit n for each slot n in use.
#[tactic(auto, using(loops::proofs::Turns::span_turn, loops::proofs::Turns::span_end), unfolding(crate::specs::Refs::flip_row))]
pub fn flip_row(h: &FrameHints, sign: &[bool; 7], i: usize) -> u64
    requires { i < 7 }
    ensures { result ≡ flip_row h.now.hints.pocs sign.now i }
{
    let hints = &h.hints;
    // By number, here and in `flip_mask`: a slot's number is its bit's place.
    let mut r: u64 = 0;
    for n in 0..hints.pocs.n_refs {
        let f = flip(
            hints,
            sign[i],
            sign[n],
            hints.pocs.ref_poc[i],
            hints.pocs.ref_poc[n],
        );
        r += u64::from(f) << n;
    }
    r
}

/// The flip mask, ref_flip: bit 8 i + n for the slots i and n in use.
#[tactic(auto, using(loops::proofs::Turns::span_turn, loops::proofs::Turns::span_end), unfolding(crate::specs::Refs::flip_mask))]
pub fn flip_mask(h: &FrameHints, sign: &[bool; 7]) -> u64
    ensures { result ≡ flip_mask h.now.hints.pocs sign.now }
{
    let mut m: u64 = 0;
    for i in 0..h.hints.pocs.n_refs {
        m += flip_row(h, sign, i) << (8 * i);
    }
    m
}
