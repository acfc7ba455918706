// The setup of a line's numbers. One that does not fit its field is read as 0, and no function here
// answers an `Option`: the judges compare the record that comes of it with the line's numbers
// (frame_cases::is_record), which finds each such number without a test of its own.
ghost use Rattle.std.specs.Prelude.{◌≡◌, ◌+◌, ◌*◌, ◌≤◌, ◌<◌, length};
ghost use Rattle.load_cases.specs.Setup.{source_at, sources_at, tip_at, setup_at, SourceNumbers, SourcesNumbers, TipNumbers, SetupNumbers};

use entry::Source;
use frame::{Frame, Sources, Tip};
use levels::Slot;
use std::array;

fn source_at(n: &[i64], k: usize) -> Source
    requires { k + 32 ≤ length n.now }
    ensures { SourceNumbers n.now k → result ≡ source_at n.now k }
{
    let reference = Slot(cases::number(n[k]));
    let tgt = cases::number(n[k + 1]);
    let dir = cases::number(n[k + 2]);
    let ref2cur = cases::number(n[k + 3]);
    let ref2ref = cases::seven(n, k + 4);
    let ref2idx = cases::seven(n, k + 11);
    let ref2sf0 = cases::seven(n, k + 18);
    let ref2sf1 = cases::seven(n, k + 25);
    Source {
        reference,
        tgt,
        dir,
        ref2cur,
        ref2ref,
        ref2idx,
        ref2sf0,
        ref2sf1,
    }
}

// The length is a clause here and in `tip_of`, and no array type: `setup_of` hands on the list that
// it is lent, which may be longer.
fn sources_of(n: &[i64]) -> Sources
    requires { 171 ≤ length n.now }
    ensures { SourcesNumbers n.now → result ≡ sources_at n.now }
{
    let mfmv_mask = cases::number(n[40]);
    let n_mfmvs = cases::number(n[42]);
    let mfmv = array::from_fn(
        |i|
            requires long { 171 ≤ length n.now }
            requires place { i < 4 }
            ensures { SourceNumbers n.entry.now (43 + 32 * i) → result ≡ source_at n.entry.now (43 + 32 * i) }
        { source_at(n, 43 + 32 * i) },
    );
    Sources {
        mfmv,
        n_mfmvs,
        mfmv_mask,
    }
}

fn tip_of(n: &[i64]) -> Tip
    requires { 171 ≤ length n.now }
    ensures { TipNumbers n.now → result ≡ tip_at n.now }
{
    let delta = cases::number(n[8]);
    let sf0 = cases::number(n[9]);
    let sf1 = cases::number(n[10]);
    Tip { delta, sf0, sf1 }
}

/// The setup of 171 numbers, fields and elements in the order of include/refmvs.h.
pub fn setup_of(n: &[i64]) -> Frame
    requires { 171 ≤ length n.now }
    ensures { SetupNumbers n.now → result ≡ setup_at n.now }
{
    let width = cases::number(n[0]);
    let height = cases::number(n[1]);
    let n_refs = cases::number(n[2]);
    let sb128 = cases::number(n[3]);
    let tmvp_sample_step = cases::number(n[4]);
    let tip_frame_mode = cases::number(n[5]);
    let tip0 = cases::number(n[6]);
    let tip1 = cases::number(n[7]);
    let tip = tip_of(n);
    let ref_flip = cases::number(n[11]);
    let rp_ref = frame_cases::switches_at(n, 12);
    let ref_sign = frame_cases::switches_at(n, 19);
    let pocdiff = cases::seven(n, 26);
    let abspocdiff = cases::seven(n, 33);
    let use_ref_frame_mvs = cases::is_on(n[41]);
    let sources = sources_of(n);
    Frame {
        width,
        height,
        sb128,
        tmvp_sample_step,
        n_refs,
        tip_frame_mode,
        tip0,
        tip1,
        rp_ref,
        ref_sign,
        pocdiff,
        abspocdiff,
        ref_flip,
        tip,
        use_ref_frame_mvs,
        sources,
    }
}
