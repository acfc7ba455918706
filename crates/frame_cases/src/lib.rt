// The kind `frame`: the header of a line's first numbers, and the numbers of the record that
// init_frame makes of it, fields and elements in the order of include/refmvs.h.
#![tactic(auto)]

ghost use Rattle.std.specs.Prelude.{◌≡◌, true, ℕ, ℤ, ◌+◌, ◌*◌, ◌≤◌, ◌<◌, length, Some, slice_get};
ghost use Rattle.cases.specs.Verdicts.{WhenTrue, WhenAgrees};
ghost use Rattle.cases.specs.Numbers.{Bytes};
ghost use Rattle.frame_cases.specs.FrameCase.{HeaderFits, hints_at, saved_at, all_saved, switches_at, pocs_of, header_of, in_i64, put_seven, put_source, put_sources, put_head, put_frame, record_of, Stated, FrameAgrees};

use cases::Verdict;
use entry::Source;
use frame::{Frame, Header, Sources};
use levels::OrderHint;
use picks::{Pocs, Saved};
use std::array;

// Does each number of the header fit its field? A switch fits as it is.
// The length is a clause, here and in the three functions below that read a header, and no array
// type: the header is the front of a line of 255 numbers, and the definitions read the whole line.
fn fits_header(n: &[i64]) -> bool
    requires { 83 ≤ length n.now }
    ensures { WhenTrue result (HeaderFits n.now) }
{
    cases::all_within(n, 0, 4, 0, 4294967295)
        && cases::all_within(n, 5, 7, 0, 255)
        && cases::all_within(n, 9, 10, 0, 255)
        && cases::all_within(n, 10, 12, -128, 127)
        && cases::all_within(n, 12, 76, 0, 255)
}

fn hints_at(n: &[i64], k: usize) -> [OrderHint; 7]
    requires { k + 7 ≤ length n.now }
    ensures { Bytes k (k + 7) n.now → result ≡ hints_at n.now k }
{
    let hints: [u8; 7] = cases::seven(n, k);
    hints.map(|hint| OrderHint(hint))
}

// A slot's saved hints, and then their count.
fn saved_at(n: &[i64], k: usize) -> Saved
    requires { k + 8 ≤ length n.now }
    ensures { Bytes k (k + 8) n.now → result ≡ saved_at n.now k }
{
    let ref_poc = hints_at(n, k);
    let refcnt = cases::number(n[k + 7]);
    Saved { ref_poc, refcnt }
}

fn all_saved(n: &[i64]) -> [Saved; 7]
    requires { 83 ≤ length n.now }
    ensures { Bytes 12 76 n.now → result ≡ all_saved n.now }
{
    array::from_fn(
        |i|
            requires long { 83 ≤ length n.now }
            requires slot { i < 7 }
            ensures { Bytes 12 76 n.entry.now → result ≡ saved_at n.entry.now (20 + 8 * i) }
        { saved_at(n, 20 + 8 * i) },
    )
}

/// Seven switches, from the number k on.
pub fn switches_at(n: &[i64], k: usize) -> [bool; 7]
    requires { k + 7 ≤ length n.now }
    ensures { result ≡ switches_at n.now k }
{
    array::from_fn(|i| cases::is_on(n[k + i]))
}

fn pocs_of(n: &[i64]) -> Pocs
    requires long { 83 ≤ length n.now }
    requires fits { HeaderFits n.now }
    ensures { result ≡ pocs_of n.now }
{
    let nbits = cases::number(n[0]);
    let n_refs = cases::number(n[3]);
    let poc = OrderHint(cases::number(n[12]));
    let ref_poc = hints_at(n, 13);
    let saved = all_saved(n);
    Pocs {
        nbits,
        poc,
        n_refs,
        ref_poc,
        saved,
    }
}

fn header_of(n: &[i64]) -> Header
    requires long { 83 ≤ length n.now }
    requires fits { HeaderFits n.now }
    ensures { result ≡ header_of n.now }
{
    let width = cases::number(n[1]);
    let height = cases::number(n[2]);
    let tip = cases::is_on(n[4]);
    let sb128 = cases::number(n[5]);
    let tmvp_sample_step = cases::number(n[6]);
    let use_ref_frame_mvs = cases::is_on(n[7]);
    let has_bothside_refs = cases::is_on(n[8]);
    let tip_frame_mode = cases::number(n[9]);
    let tip0 = cases::number(n[10]);
    let tip1 = cases::number(n[11]);
    let rp_ref = switches_at(n, 76);
    let pocs = pocs_of(n);
    Header {
        width,
        height,
        sb128,
        tmvp_sample_step,
        tip,
        use_ref_frame_mvs,
        has_bothside_refs,
        tip_frame_mode,
        tip0,
        tip1,
        rp_ref,
        pocs,
    }
}

// A line has no number above the largest i64. No `as`, which would wrap.
fn of_u64(v: u64) -> i64
    ensures { result ≡ in_i64 v }
{
    i64::try_from(v).unwrap_or(i64::MAX)
}

// Puts the seven elements from k on: f is what each converts to.
fn put_seven<T: Copy + Into<i64>>(a: &[T; 7], out: &mut [i64; 171], k: usize)
    requires { k + 7 ≤ 171 }
    ensures { (f : ℕ → ℤ) → ((i : ℕ) (x : T) (z : ℤ) → slice_get a.now i ≡ Some x → T.converts x z → z ≡ f i) → out.new ≡ put_seven f k out.old }
{
    // The index serves both lists: a `zip` with `out[k..k + 7]` would say once more how many there are.
    for (i, &v) in a.iter().enumerate() {
        out[k + i] = v.into();
    }
}

fn put_source(s: Source, out: &mut [i64; 171], k: usize)
    requires { k + 32 ≤ 171 }
    ensures { out.new ≡ put_source s k out.old }
{
    let reference = s.reference;
    out[k] = i64::from(reference.0);
    out[k + 1] = i64::from(s.tgt);
    out[k + 2] = i64::from(s.dir);
    out[k + 3] = i64::from(s.ref2cur);
    put_seven(&s.ref2ref, out, k + 4);
    put_seven(&s.ref2idx, out, k + 11);
    put_seven(&s.ref2sf0, out, k + 18);
    put_seven(&s.ref2sf1, out, k + 25);
}

fn put_sources(sources: Sources, out: &mut [i64; 171])
    ensures { out.new ≡ put_sources sources out.old }
{
    // The index says where in the record a source's numbers go.
    for (i, &s) in sources.mfmv.iter().enumerate() {
        put_source(s, out, 43 + 32 * i);
    }
}

fn put_head(f: Frame, out: &mut [i64; 171])
    ensures { out.new ≡ put_head f out.old }
{
    out[0] = i64::from(f.width);
    out[1] = i64::from(f.height);
    // `as`: there is no `From` from usize to u64, and a `try_from` would have to name a number for a failure that cannot come.
    out[2] = of_u64(f.n_refs as u64);
    out[3] = i64::from(f.sb128);
    out[4] = i64::from(f.tmvp_sample_step);
    out[5] = i64::from(f.tip_frame_mode);
    out[6] = i64::from(f.tip0);
    out[7] = i64::from(f.tip1);
    out[8] = i64::from(f.tip.delta);
    out[9] = i64::from(f.tip.sf0);
    out[10] = i64::from(f.tip.sf1);
    out[11] = of_u64(f.ref_flip);
}

fn put_frame(f: Frame, out: &mut [i64; 171])
    ensures { out.new ≡ put_frame f out.old }
{
    let sources = f.sources;
    put_head(f, out);
    put_seven(&f.rp_ref, out, 12);
    put_seven(&f.ref_sign, out, 19);
    put_seven(&f.pocdiff, out, 26);
    put_seven(&f.abspocdiff, out, 33);
    out[40] = i64::from(sources.mfmv_mask);
    out[41] = i64::from(f.use_ref_frame_mvs);
    // `as`: as in `put_head`.
    out[42] = of_u64(sources.n_mfmvs as u64);
    put_sources(sources, out);
}

/// Is this the record that the line states, from the number `from` on?
pub fn is_record(f: Frame, n: &[i64], from: usize) -> bool
    requires { from + 171 ≤ length n.now }
    ensures { WhenTrue result (Stated (record_of f) n.now from) }
{
    let mut made = [0i64; 171];
    put_frame(f, &mut made);
    cases::same(&made, n, from)
}

fn same_frame(n: &[i64]) -> Option<bool>
    ensures { result ≡ Some true → FrameAgrees n.now }
{
    if n.len() != 255 || !fits_header(n) {
        return None;
    }
    let (number, f) = cases::said(frame::init_frame(&header_of(n)), frame::zero_frame());
    Some(i64::from(number) == n[83] && is_record(f, n, 84))
}

/// Judges a line of a header, the refusal's number and the record.
pub fn judge_frame(n: &[i64]) -> Verdict
    ensures { WhenAgrees result (FrameAgrees n.now) }
{
    same_frame(n).into()
}
