// A setup's records as C has them: the header and the setup that C hands over, read as the library's,
// and the setup that C gets.
#![tactic(auto)]

ghost use Rattle.std.specs.Prelude.{◌≡◌};
ghost use Rattle.frame.specs.Frame.{says_setup};
ghost use Rattle.c_setup.specs.Setup.{header_of, frame_of, switches_of, given_by};

use frame::{Frame, Header, Sources, Tip};
use levels::{OrderHint, Refusal};
use picks::{Pocs, Saved};

/// A header as C hands it over: switches are bytes, on where not 0.
#[repr(C)]
#[derive(Clone, Copy)]
pub struct CHeader {
    pub order_hint_n_bits: u32,
    pub width: u32,
    pub height: u32,
    pub n_ref_frames: u32,
    pub tip: u8,
    pub sb128: u8,
    pub tmvp_sample_step: u8,
    pub use_ref_frame_mvs: u8,
    pub has_bothside_refs: u8,
    pub tip_frame_mode: u8,
    pub tip0: i8,
    pub tip1: i8,
    pub frame_offset: OrderHint,
    pub ref_poc: [OrderHint; 7],
    pub saved: [Saved; 7],
    pub rp_ref: [u8; 7],
}

/// A setup as C gets it: the refusal's number, 0 for none, and the record.
#[repr(C)]
#[derive(Clone, Copy)]
pub struct CSetup {
    pub refusal: u32,
    pub frame: Frame,
}

impl From<Result<Frame, Refusal>> for CSetup {
    ghost from_gives = { λ r c. given_by c ≡ says_setup r };

    fn from(setup: Result<Frame, Refusal>) -> CSetup {
        match setup {
            Ok(frame) => CSetup { refusal: 0, frame },
            Err(refusal) => CSetup {
                refusal: u32::from(refusal),
                frame: frame::zero_frame(),
            },
        }
    }
}

/// A setup as C hands it to a load: as it was given, but that switches are bytes, on where not 0.
// `n_refs` beside the lists of seven: the record is C's, which has no list that knows its length.
#[repr(C)]
#[derive(Clone, Copy)]
pub struct CFrame {
    pub width: u32,
    pub height: u32,
    pub sb128: u8,
    pub tmvp_sample_step: u8,
    pub n_refs: usize,
    pub tip_frame_mode: u8,
    pub tip0: i8,
    pub tip1: i8,
    pub rp_ref: [u8; 7],
    pub ref_sign: [u8; 7],
    pub pocdiff: [i8; 7],
    pub abspocdiff: [u8; 7],
    pub ref_flip: u64,
    pub tip: Tip,
    pub use_ref_frame_mvs: u8,
    pub sources: Sources,
}

// Seven switches: on where a byte is not 0.
fn switches(bytes: [u8; 7]) -> [bool; 7]
    ensures { result ≡ switches_of bytes }
{
    bytes.map(|byte| byte != 0)
}

/// The header that C hands over, its switches read.
impl From<CHeader> for Header {
    ghost from_gives = { λ c h. h ≡ header_of c };

    fn from(c: CHeader) -> Header {
        // Arrays are read into variables first: the check takes none straight from one record into another.
        let ref_poc = c.ref_poc;
        let saved = c.saved;
        let present = c.rp_ref;
        let pocs = Pocs {
            nbits: c.order_hint_n_bits,
            poc: c.frame_offset,
            // `as`, as no From goes from u32 to usize.
            n_refs: c.n_ref_frames as usize,
            ref_poc,
            saved,
        };
        let rp_ref = switches(present);
        Header {
            width: c.width,
            height: c.height,
            sb128: c.sb128,
            tmvp_sample_step: c.tmvp_sample_step,
            tip: c.tip != 0,
            use_ref_frame_mvs: c.use_ref_frame_mvs != 0,
            has_bothside_refs: c.has_bothside_refs != 0,
            tip_frame_mode: c.tip_frame_mode,
            tip0: c.tip0,
            tip1: c.tip1,
            rp_ref,
            pocs,
        }
    }
}

/// The setup that C hands to a load, its switches read.
impl From<CFrame> for Frame {
    ghost from_gives = { λ c f. f ≡ frame_of c };

    fn from(given: CFrame) -> Frame {
        // Arrays are read into variables first, as above.
        let present = given.rp_ref;
        let signs = given.ref_sign;
        let pocdiff = given.pocdiff;
        let abspocdiff = given.abspocdiff;
        let rp_ref = switches(present);
        let ref_sign = switches(signs);
        Frame {
            width: given.width,
            height: given.height,
            sb128: given.sb128,
            tmvp_sample_step: given.tmvp_sample_step,
            n_refs: given.n_refs,
            tip_frame_mode: given.tip_frame_mode,
            tip0: given.tip0,
            tip1: given.tip1,
            rp_ref,
            ref_sign,
            pocdiff,
            abspocdiff,
            ref_flip: given.ref_flip,
            tip: given.tip,
            use_ref_frame_mvs: given.use_ref_frame_mvs != 0,
            sources: given.sources,
        }
    }
}
