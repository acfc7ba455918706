// The leaf functions as the entries for C call them: any numbers, an answer that is the refusal's
// number of 01 (0 for none), and a buffer that the caller lends for the result. A refused call leaves
// the buffer as it was.
// An entry's clauses stand here, at its entry in `refmvs` and at its export in `refmvs_c`: the C interface, whose exports are a static
// library's, which no crate can call.
#![tactic(auto)]

ghost use Rattle.levels.specs.Answer.{says};
ghost use Rattle.mv.specs.Projection.{mv_projection, scale_mv};
ghost use Rattle.mv.specs.Packing.{packed, unpacked};
ghost use Rattle.env.specs.Hints.{poc_diff};
ghost use Rattle.lent.specs.Lent.{Gives, GivesBytes, GivesDiff};

use levels::{Mv, OrderHint, QMv, Refusal};

// Writes an answer's vector into out, and answers its number. Not one function with the `match` of `get_poc_diff`: that writes a
// number, and each is used for its own type of value alone.
fn put_mv(answer: Result<Mv, Refusal>, out: &mut [i32; 2]) -> u32
    ensures { Gives (says answer) result out.old out.new }
{
    match answer {
        Ok(mv) => {
            out[0] = mv.y;
            out[1] = mv.x;
            0
        }
        Err(refusal) => refusal.into(),
    }
}

/// `mv::mv_projection` for C: the projected vector goes into out, y first; the answer is the refusal's number, 0 for none.
pub fn mv_projection(
    y: i32,
    x: i32,
    num: i32,
    den: i32,
    min: i32,
    max: i32,
    out: &mut [i32; 2],
) -> u32
    ensures { Gives (mv_projection (record { y = y; x = x }) num den «min» «max») result out.old out.new }
{
    put_mv(mv::mv_projection(Mv { y, x }, num, den, min, max), out)
}

/// `mv::scale_mv` for C, in the same way.
pub fn scale_mv(y: i32, x: i32, sf: i32, out: &mut [i32; 2]) -> u32
    ensures { Gives (scale_mv (record { y = y; x = x }) sf) result out.old out.new }
{
    put_mv(mv::scale_mv(Mv { y, x }, sf), out)
}

/// `mv::dequantize_mv` for C, in the same way.
pub fn dequantize_mv(y: i8, x: i8, out: &mut [i32; 2]) -> u32
    ensures { Gives (unpacked (record { y = y; x = x })) result out.old out.new }
{
    put_mv(mv::dequantize_mv(QMv { y, x }), out)
}

/// `mv::quantize_mv` for C: the packed vector goes into out, y first. Packing refuses nothing, so the answer is 0: what has no code is the mark.
pub fn quantize_mv(y: i32, x: i32, out: &mut [i8; 2]) -> u32
    ensures { GivesBytes (packed (record { y = y; x = x })) result out.old out.new }
{
    let q = mv::quantize_mv(Mv { y, x });
    out[0] = q.y;
    out[1] = q.x;
    0
}

/// `env::get_poc_diff` for C: the difference goes into out; the answer is the refusal's number, 0 for none.
pub fn get_poc_diff(
    order_hint_n_bits: u32,
    poc0: OrderHint,
    poc1: OrderHint,
    out: &mut [i32; 1],
) -> u32
    ensures { GivesDiff (poc_diff order_hint_n_bits poc0 poc1) result out.old out.new }
{
    match env::get_poc_diff(order_hint_n_bits, poc0, poc1) {
        Ok(d) => {
            out[0] = d;
            0
        }
        Err(refusal) => refusal.into(),
    }
}
