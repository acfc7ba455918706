// Projection, scaling and packing of motion vectors, and the averages of the field's passes: the
// leaves of refmvs.rs.
#![tactic(auto)]

ghost use Rattle.std.specs.Prelude.{◌≡◌, false, cond, ◌+◌, ◌<◌, ◌≤◌, ◌/◌, ◌^◌, pos, nat_abs, ◌+ℤ◌, ◌*ℤ◌};
ghost use Rattle.intops.specs.Choice.{with_sign};
ghost use Rattle.intops.specs.Bounds.{Within};
ghost use Rattle.intops.specs.Rounding.{round_div};
ghost use Rattle.levels.specs.Answer.{says};
ghost use Rattle.mv.specs.Projection.{past_range, reciprocal, projection_factor, scaled_by, scaled_vector, mv_projection, scale_mv};
ghost use Rattle.mv.specs.Packing.{pack_code, unpack_mag, packed, unpacked};
ghost use Rattle.mv.specs.Averages.{smoothed, gap_mean, SumOf, Averaged};
ghost use Rattle.mv.specs.Sums.{is_empty, no_sum, added, smoothed_of, gap_of, Fair};

use levels::{Mv, QMv, Refusal};

// 16384 / d, the whole part, and 0 for 0.
const DIV_MULT: [u16; 32] = [
    0, 16384, 8192, 5461, 4096, 3276, 2730, 2340, 2048, 1820, 1638, 1489, 1365, 1260, 1170, 1092,
    1024, 963, 910, 862, 819, 780, 744, 712, 682, 655, 630, 606, 585, 564, 546, 528,
];

/// The entry of the table of reciprocals, DIV_MULT in refmvs.rs: 16384 / d, the whole part, and 0 for 0.
pub fn div_mult(d: usize) -> u16
    requires { d < 32 }
    ensures { result ≡ reciprocal d }
{
    DIV_MULT[d]
}

/// num / den as a multiple of 1/16384, num clipped to -31..31 and den to 1..31.
pub fn projection_factor(num: i32, den: i32) -> i32
    ensures { result ≡ projection_factor num den }
{
    let n = intops::iclip(num, -31, 31);
    let d = intops::iclip(den, 1, 31);
    // `as`, as no From goes from i32 to usize: d is 1 to 31.
    let m = div_mult(d as usize);
    n * i32::from(m)
}

/// v times sf / 16384, rounded to nearest, halves away from zero, then clipped. Any v: the product
/// has 64 bits.
// No type of factors in range: they stand in C's record, in which they may be any number, and a load tests those.
pub fn scale_comp(v: i32, sf: i32, min: i32, max: i32) -> i32
    requires { Within 507904 sf }
    ensures { result ≡ scaled_by sf «min» «max» v }
{
    let p = i64::from(v) * i64::from(sf);
    intops::iclip64to32(intops::round_shift(p, 14), min, max)
}

/// Both components scaled: within the library, where the factor is in range already.
pub fn scale_vector(mv: Mv, sf: i32, min: i32, max: i32) -> Mv
    requires { Within 507904 sf }
    ensures { result ≡ scaled_vector sf «min» «max» mv }
{
    let y = scale_comp(mv.y, sf, min, max);
    let x = scale_comp(mv.x, sf, min, max);
    Mv { y, x }
}

/// Refusal 1's test of the components: is one past ±65,535?
#[tactic(auto, unfolding(crate::specs::Projection::past_range))]
pub fn past_range(mv: Mv) -> bool
    ensures { result ≡ past_range mv }
{
    (65535 < intops::unsigned_abs(mv.y)) | (65535 < intops::unsigned_abs(mv.x))
}

/// v times num / den, clipped to min .. max; refusal 1 for a component past ±65,535 or crossed bounds.
#[tactic(auto, using(crate::proofs::Projection::factor_within))]
pub fn mv_projection(mv: Mv, num: i32, den: i32, min: i32, max: i32) -> Result<Mv, Refusal>
    ensures { says result ≡ mv_projection mv num den «min» «max» }
{
    if past_range(mv) || max < min {
        return Err(Refusal::VectorOutOfRange);
    }
    let sf = projection_factor(num, den);
    Ok(scale_vector(mv, sf, min, max))
}

/// v times sf / 16384, clipped to ±65,535; refusal 1 for a component past ±65,535 or a factor past ±507,904.
pub fn scale_mv(mv: Mv, sf: i32) -> Result<Mv, Refusal>
    ensures { says result ≡ scale_mv mv sf }
{
    if past_range(mv) || 507904 < intops::unsigned_abs(sf) {
        return Err(Refusal::VectorOutOfRange);
    }
    Ok(scale_vector(mv, sf, -65535, 65535))
}

/// The code of a magnitude: below 32, the shift b is 0. Without a branch, as magnitudes are anything.
pub fn quantize_mv_comp(absv: u32) -> u32
    requires { absv < 2048 }
    ensures { result ≡ pack_code absv }
{
    let b = intops::ulog2(intops::umax(absv, 16)) - 4;
    (absv >> b) + 16 * b
}

/// The code of a component, with its sign.
pub fn quantize_signed(v: i32) -> i8
    requires { nat_abs v < 2048 }
    ensures { result ≡ with_sign v (pack_code (nat_abs v)) }
{
    // `as`, as no From goes from i32 to i8: a code is below 128.
    intops::apply_sign(quantize_mv_comp(intops::unsigned_abs(v)), v) as i8
}

/// The packed vector of a vector: the mark where a magnitude is 2,048 or more, else the two codes with their signs.
pub fn quantize_mv(mv: Mv) -> QMv
    ensures { result ≡ packed mv }
{
    if 2048 <= intops::unsigned_abs(mv.y) || 2048 <= intops::unsigned_abs(mv.x) {
        return QMv::MARK;
    }
    let y = quantize_signed(mv.y);
    let x = quantize_signed(mv.x);
    QMv { y, x }
}

/// The least magnitude of a code: below 32, the shift b is 0.
pub fn dequantize_abs(code: u32) -> u32
    requires { code < 128 }
    ensures { result ≡ unpack_mag code }
{
    let b = intops::umax(code / 16, 1) - 1;
    (code - 16 * b) << b
}

/// The component of a byte that is not -128.
pub fn dequantize_mv_comp(v: i32) -> i32
    requires { nat_abs v < 128 }
    ensures { result ≡ with_sign v (unpack_mag (nat_abs v)) }
{
    intops::apply_sign(dequantize_abs(intops::unsigned_abs(v)), v)
}

/// The vector of a packed vector: the empty one for the mark; refusal 2 where exactly one byte is -128.
pub fn dequantize_mv(mv: QMv) -> Result<Mv, Refusal>
    ensures { says result ≡ unpacked mv }
{
    if mv.y == -128 || mv.x == -128 {
        return if mv == QMv::MARK {
            Ok(Mv::EMPTY)
        } else {
            Err(Refusal::HalfMark)
        };
    }
    let y = dequantize_mv_comp(i32::from(mv.y));
    let x = dequantize_mv_comp(i32::from(mv.x));
    Ok(Mv { y, x })
}

/// A sum of cells that are not empty, and how many there are.
// `Fair` stands in contracts and not in a field: the definitions make sums, and each would have to carry its proof.
#[derive(Clone, Copy, PartialEq, Eq, Debug)]
pub struct Sum {
    pub y: i64,
    pub x: i64,
    pub n: usize,
}

/// sum times idiv / 2^bits, rounded to nearest, halves away from zero: the average of n cells, where
/// idiv is the whole part of 2^bits / n. The n cells bound the sum, so that the average has 32 bits.
// One component's sum and the count, here and in the averages below, and no `Sum`, which has both components: an average of one is asked for, too.
pub fn average_of(sum: i64, n: usize, idiv: u32, bits: u32) -> i32
    requires { Averaged n sum idiv bits }
    ensures { result ≡ round_div (2 ^ bits) (sum *ℤ pos idiv) }
{
    let p = sum * i64::from(idiv);
    // `as`, as no From goes from i64 to i32: an average of numbers of 32 bits has 32 bits.
    intops::round_shift(p, bits) as i32
}

// 65536 / n, the whole part, and 0 for 0.
const SMOOTHEN_IDIV: [u32; 6] = [0, 65536, 32768, 21845, 16384, 13107];

/// The reciprocal of n for the averages of smoothen, SMOOTHEN_IDIV in refmvs.rs: 65536 / n, the whole part.
pub fn smoothen_idiv(n: usize) -> u32
    requires some { 1 ≤ n }
    requires few { n ≤ 5 }
    ensures { result ≡ 65536 / n }
{
    SMOOTHEN_IDIV[n]
}

/// The average of smoothen over n cells.
// It and gap_average are `average_of` at their own reciprocals and bits; a const parameter for these would want the reciprocals as a trait.
#[tactic(auto, unfolding(crate::specs::Averages::smoothed))]
pub fn smooth_average(sum: i64, n: usize) -> i32
    requires some { 1 ≤ n }
    requires few { n ≤ 5 }
    requires sum { SumOf n sum }
    ensures { result ≡ smoothed n sum }
{
    average_of(sum, n, smoothen_idiv(n), 16)
}

/// The reciprocal of n for the averages of gap filling: 256 / n, the whole part.
// 256, 128, 85 and 64 stand in the four parts of one number: with a table, as for smoothen, a gap of four cells takes 7% longer.
pub fn gap_idiv(n: usize) -> u32
    requires some { 1 ≤ n }
    requires few { n ≤ 4 }
    ensures { result ≡ 256 / n }
{
    let all: u64 = 18014763590091008;
    // `as`, as no From goes from usize or u64 to u32: n is 4 at most, and a part has 16 bits.
    ((all >> (16 * (n as u32 - 1))) & 65535) as u32
}

/// The average of fill_gap_proj and fill_gap_traj over n cells.
#[tactic(auto, unfolding(crate::specs::Averages::gap_mean))]
pub fn gap_average(sum: i64, n: usize) -> i32
    requires some { 1 ≤ n }
    requires few { n ≤ 4 }
    requires sum { SumOf n sum }
    ensures { result ≡ gap_mean n sum }
{
    average_of(sum, n, gap_idiv(n), 8)
}

/// Is a vector empty? Its y alone tells.
pub fn is_empty(mv: Mv) -> bool
    ensures { result ≡ is_empty mv }
{
    mv.y == levels::INVALID_MV
}

// z, or 0: a choice of one value, which compiles without a branch. Which cells are empty can't be foreseen.
fn kept(there: bool, z: i32) -> i64
    ensures { result ≡ cond there z (pos 0) }
{
    if there { i64::from(z) } else { 0 }
}

impl Sum {
    /// The sum of no cells.
    pub const NONE: Sum = Sum { y: 0, x: 0, n: 0 };

    /// The sum of one cell, which is not empty.
    pub fn one(v: Mv) -> Sum
        requires { is_empty v ≡ false }
        ensures sum { result ≡ added v no_sum }
        ensures fair { Fair result }
        ensures few { result.n ≤ 1 }
        ensures some { 1 ≤ result.n }
    {
        Sum::NONE.add(v)
    }

    /// A cell is added, if it is not empty.
    pub fn add(self, v: Mv) -> Sum
        requires fair { Fair self }
        requires few { self.n ≤ 4 }
        ensures sum { result ≡ added v self }
        ensures fair { Fair result }
        ensures no_fewer { self.n ≤ result.n }
        ensures one_more { result.n ≤ self.n + 1 }
    {
        let there = !is_empty(v);
        let y = self.y + kept(there, v.y);
        let x = self.x + kept(there, v.x);
        Sum {
            y,
            x,
            n: self.n + usize::from(there),
        }
    }

    /// The mean of smoothen, empty where no cell was added.
    // No Option: the mean goes into the field, in which the empty vector is none.
    pub fn smoothed(self) -> Mv
        requires fair { Fair self }
        requires few { self.n ≤ 5 }
        ensures { result ≡ smoothed_of self }
    {
        if self.n == 0 {
            return Mv::EMPTY;
        }
        let y = smooth_average(self.y, self.n);
        let x = smooth_average(self.x, self.n);
        Mv { y, x }
    }

    /// The mean of gap filling.
    // Not one with `smoothed`, which answers for no cells too: this is never asked of none, and takes another average.
    pub fn gap_mean(self) -> Mv
        requires fair { Fair self }
        requires some { 1 ≤ self.n }
        requires few { self.n ≤ 4 }
        ensures { result ≡ gap_of self }
    {
        let y = gap_average(self.y, self.n);
        let x = gap_average(self.x, self.n);
        Mv { y, x }
    }
}

// The mean of two numbers, as gap filling takes it.
fn mean_of_two(a: i32, b: i32) -> i32
    ensures { result ≡ gap_mean 2 (a +ℤ b) }
{
    gap_average(i64::from(a) + i64::from(b), 2)
}

// a, or v where a is empty: a choice of one value, as in `kept`. No `unwrap_or` of an Option: that would be made of the same test, to be taken apart at once.
fn or_else(a: Mv, v: Mv) -> Mv
    ensures { result ≡ cond (is_empty a) v a }
{
    if is_empty(a) { v } else { a }
}

/// The mean of a cell that is not empty and one more. Where that is empty v stands for it, as the mean of v and v is v.
pub fn gap_of_two(v: Mv, a: Mv) -> Mv
    requires { is_empty v ≡ false }
    ensures { result ≡ gap_of (added a (added v no_sum)) }
{
    let b = or_else(a, v);
    let y = mean_of_two(v.y, b.y);
    let x = mean_of_two(v.x, b.x);
    Mv { y, x }
}

/// The same with three more.
pub fn gap_of_four(v: Mv, a: Mv, b: Mv, c: Mv) -> Mv
    requires { is_empty v ≡ false }
    ensures { result ≡ gap_of (added c (added b (added a (added v no_sum)))) }
{
    Sum::one(v).add(a).add(b).add(c).gap_mean()
}
