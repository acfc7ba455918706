// The difference of two order hints, from env.rs.
#![tactic(auto)]

ghost use Rattle.std.specs.Prelude.{◌≡◌, ◌≤◌};
ghost use Rattle.env.specs.Hints.{hint_diff, poc_diff, says_diff};

use levels::{OrderHint, Refusal};

/// poc0 - poc1 modulo 2^n, in -2^(n-1) .. 2^(n-1) - 1. Within the library, where n is tested already.
pub fn poc_diff(order_hint_n_bits: u32, poc0: OrderHint, poc1: OrderHint) -> i32
    requires { order_hint_n_bits ≤ 8 }
    ensures { result ≡ hint_diff order_hint_n_bits poc0 poc1 }
{
    let m: u32 = 1 << order_hint_n_bits;
    // `as` below, as no From goes from u32 to i32: both are 256 at most. Unsigned up to there, so that the remainder has no sign to be looked at.
    let d = u32::from(poc0.0.wrapping_sub(poc1.0)) % m;
    if d + d < m {
        d as i32
    } else {
        (d as i32) - (m as i32)
    }
}

/// The difference of two order hints of n bits, as poc_diff; refusal 3 for hint bits above 8.
pub fn get_poc_diff(
    order_hint_n_bits: u32,
    poc0: OrderHint,
    poc1: OrderHint,
) -> Result<i32, Refusal>
    ensures { says_diff result ≡ poc_diff order_hint_n_bits poc0 poc1 }
{
    if 8 < order_hint_n_bits {
        return Err(Refusal::TooManyBits);
    }
    Ok(poc_diff(order_hint_n_bits, poc0, poc1))
}
