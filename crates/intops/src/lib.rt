// Whole-number functions of intops.rs. Their laws, and those of signed arithmetic that every crate
// above cites, are in proofs/.
#![tactic(auto)]

ghost use Rattle.std.specs.Prelude.{◌≡◌, ◌<◌, ◌≤◌, ◌^◌, max, nat_abs};
ghost use Rattle.intops.specs.Choice.{min_z, max_z, clip_z, with_sign};
ghost use Rattle.intops.specs.Bounds.{Within};
ghost use Rattle.intops.specs.Bits.{highest_bit};
ghost use Rattle.intops.specs.Rounding.{round_div};

/// The greater of two numbers.
// This, imin, umax, unsigned_abs and ulog2 are std's `max`, `min`, `unsigned_abs` and `ilog2` by the names of intops.rs: the module is carried over function by function.
pub fn imax(a: i32, b: i32) -> i32
    ensures { result ≡ max_z a b }
{
    a.max(b)
}

/// The lesser of two numbers.
pub fn imin(a: i32, b: i32) -> i32
    ensures { result ≡ min_z a b }
{
    a.min(b)
}

/// The greater of two numbers without sign.
pub fn umax(a: u32, b: u32) -> u32
    ensures { result ≡ max a b }
{
    a.max(b)
}

/// The number v, or the bound that it is past: min where it is below min, else max where it is above max.
// This and iclip64to32 are not `clamp`, which asks for min <= max: here crossed bounds have an answer too. Callers whose bounds are constants take it as well: function by function they call what the Rust calls.
pub fn iclip(v: i32, min: i32, max: i32) -> i32
    ensures { result ≡ clip_z «min» «max» v }
{
    if v < min {
        min
    } else if max < v {
        max
    } else {
        v
    }
}

/// The same of a number of 64 bits.
pub fn iclip64to32(v: i64, min: i32, max: i32) -> i32
    ensures { result ≡ clip_z «min» «max» v }
{
    if v < i64::from(min) {
        min
    } else if i64::from(max) < v {
        max
    } else {
        // `as`, as no From goes from i64 to i32: v lies between two numbers of 32 bits here.
        v as i32
    }
}

/// The magnitude, also of -2^31.
pub fn unsigned_abs(v: i32) -> u32
    ensures { result ≡ nat_abs v }
{
    v.unsigned_abs()
}

/// The magnitude v with the sign of s.
pub fn apply_sign(v: u32, s: i32) -> i32
    requires { v < 2 ^ 31 }
    ensures { result ≡ with_sign s v }
{
    // `as`, as no From goes from u32 to i32: v is below 2^31.
    if s < 0 { -(v as i32) } else { v as i32 }
}

/// The place of the highest one bit.
pub fn ulog2(v: u32) -> u32
    requires { 0 < v }
    ensures { result ≡ highest_bit v }
{
    v.ilog2()
}

/// p / 2^bits, rounded to nearest, halves away from zero.
pub fn round_shift(p: i64, bits: u32) -> i64
    requires small { Within (2 ^ 61) p }
    requires some { 1 ≤ bits }
    requires few { bits ≤ 32 }
    ensures { result ≡ round_div (2 ^ bits) p }
{
    let low: u32 = bits - 1;
    let half: i64 = 1 << low;
    (p + half - i64::from(p < 0)) >> bits
}
