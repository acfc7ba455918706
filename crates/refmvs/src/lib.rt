// The library's entries, which refmvs_c exports for C and Rust. Each takes any numbers, answers the refusal's number of
// 01 (0 for none), and writes its result into a buffer that the caller lends. A refused call leaves
// the buffer as it was. The setup is handed over and given back by value.
// An entry's clauses stand here, at its export in `refmvs_c` and, for the leaf functions, in `lent`: the C interface, whose exports
// are a static library's, which no crate can call. For C, too, a load's lists and numbers come one by one.
#![tactic(auto)]

ghost use Rattle.mv.specs.Projection.{mv_projection, scale_mv};
ghost use Rattle.mv.specs.Packing.{packed, unpacked};
ghost use Rattle.env.specs.Hints.{poc_diff};
ghost use Rattle.frame.specs.Frame.{setup_of};
ghost use Rattle.std.specs.Prelude.{◌≡◌};
ghost use Rattle.store.specs.Store.{pack};
ghost use Rattle.store.specs.Calls.{called};
ghost use Rattle.load.specs.Calls.{answer, load};
ghost use Rattle.load.specs.Asked.{asked_of, call_of};
ghost use Rattle.lent.specs.Lent.{Gives, GivesBytes, GivesDiff};
ghost use Rattle.c_setup.specs.Setup.{on, header_of, given_by, frame_of};

use c_setup::{CFrame, CHeader, CSetup};
use field::Field;
use frame::{Frame, Header};
use levels::OrderHint;
use load::Asked;
use store::Pairs;

/// Projects the vector (`y`, `x`) by `num` over `den`, clipped to `min` and `max`: refusal 1, or the vector in `out`.
pub fn refmvs_mv_projection(
    y: i32,
    x: i32,
    num: i32,
    den: i32,
    min: i32,
    max: i32,
    out: &mut [i32; 2],
) -> u32
    ensures { Gives (mv_projection (record { y = y; x = x }) num den «min» «max») result out.old out.new }
{
    lent::mv_projection(y, x, num, den, min, max, out)
}

/// Scales the vector (`y`, `x`) by the factor `sf`: refusal 1, or the vector in `out`.
pub fn refmvs_scale_mv(y: i32, x: i32, sf: i32, out: &mut [i32; 2]) -> u32
    ensures { Gives (scale_mv (record { y = y; x = x }) sf) result out.old out.new }
{
    lent::scale_mv(y, x, sf, out)
}

/// Unpacks the packed vector (`y`, `x`): refusal 2, or the vector in `out`.
pub fn refmvs_dequantize_mv(y: i8, x: i8, out: &mut [i32; 2]) -> u32
    ensures { Gives (unpacked (record { y = y; x = x })) result out.old out.new }
{
    lent::dequantize_mv(y, x, out)
}

/// Packs the vector (`y`, `x`) into `out`. It refuses nothing: what has no code is the mark.
pub fn refmvs_quantize_mv(y: i32, x: i32, out: &mut [i8; 2]) -> u32
    ensures { GivesBytes (packed (record { y = y; x = x })) result out.old out.new }
{
    lent::quantize_mv(y, x, out)
}

/// The hint `poc0` less the hint `poc1`, with `order_hint_n_bits` bits: refusal 3, or the difference in `out`.
pub fn refmvs_get_poc_diff(
    order_hint_n_bits: u32,
    poc0: OrderHint,
    poc1: OrderHint,
    out: &mut [i32; 1],
) -> u32
    ensures { GivesDiff (poc_diff order_hint_n_bits poc0 poc1) result out.old out.new }
{
    lent::get_poc_diff(order_hint_n_bits, poc0, poc1, out)
}

/// The setup of a frame with this header, or the first of the refusals 3 to 8 with a setup of zeros.
pub fn refmvs_init_frame(header: CHeader) -> CSetup
    ensures { given_by result ≡ setup_of (header_of header) }
{
    CSetup::from(frame::init_frame(&Header::from(header)))
}

/// Loads a tile, or answers the first of the refusals 9 to 12. The lent slices may be longer than 01 states; a refused call leaves them
/// as they were.
pub fn refmvs_load_tmvs(
    field_y: &mut [i32],
    field_x: &mut [i32],
    field_ref: &mut [u8],
    traj_y: &mut [i32],
    traj_x: &mut [i32],
    map_y: &mut [i8],
    map_x: &mut [i8],
    planes: &[i8],
    setup: CFrame,
    whole_frame: u8,
    traj: u8,
    holes: u8,
    col_start: usize,
    col_end: usize,
    row_start: usize,
    row_end: usize,
) -> u32
    ensures answer { let c = call_of (frame_of setup) (asked_of (on whole_frame) (on traj) (on holes) col_start col_end row_start row_end) planes.now in
        result ≡ answer c (pack field_y.old field_x.old field_ref.old traj_y.old traj_x.old map_y.old map_x.old) }
    ensures stored { let c = call_of (frame_of setup) (asked_of (on whole_frame) (on traj) (on holes) col_start col_end row_start row_end) planes.now in
        pack field_y.new field_x.new field_ref.new traj_y.new traj_x.new map_y.new map_x.new
        ≡ called answer load c (pack field_y.old field_x.old field_ref.old traj_y.old traj_x.old map_y.old map_x.old) }
{
    let frame = Frame::from(setup);
    let asked = Asked {
        whole_frame: whole_frame != 0,
        traj: traj != 0,
        holes: holes != 0,
        col_start,
        col_end,
        row_start,
        row_end,
    };
    let mut field = Field {
        y: field_y,
        x: field_x,
        reference: field_ref,
    };
    let mut trajectories = Pairs {
        y: traj_y,
        x: traj_x,
    };
    let mut maps = Pairs { y: map_y, x: map_x };
    // A `match`, as where `lent` answers a number: it names both answers once, where `.err().map_or(0, u32::from)` would turn the answer twice.
    match tmvs::load_tmvs(
        &mut field,
        &mut trajectories,
        &mut maps,
        planes,
        &frame,
        asked,
    ) {
        Ok(()) => 0,
        Err(refusal) => refusal.into(),
    }
}
