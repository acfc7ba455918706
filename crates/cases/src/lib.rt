// What the judges of kept cases share: the verdict, and numbers of a line that are to fit a field.
#![tactic(auto)]

ghost use Rattle.std.specs.Prelude.{◌≡◌, ◌≤◌, ◌+◌, ℕ, nat_abs, length, IfSome, Ok, Some, slice_get, ◌<◌};
ghost use Rattle.std.specs.Result.{result_unwrap_or};
ghost use Rattle.levels.specs.Answer.{refusal_of};
ghost use Rattle.cases.specs.Numbers.{at, Inside, Is32, AllInside, is_on, IsSize, IsNumber};
ghost use Rattle.cases.specs.Verdicts.{WhenTrue};

use levels::Refusal;
use std::array;
use std::num::TryFromIntError;

/// What a judge says of a case.
// Not the `Option<bool>` that the judges make it of: whoever reads a verdict tells three outcomes apart, and these are their names.
#[derive(Clone, Copy, Debug, PartialEq, Eq)]
pub enum Verdict {
    /// What the line states is the library's answer.
    Agrees,
    /// It is not.
    Differs,
    /// A count of numbers that the kind does not have, or a number that does not fit its field.
    NotACase,
}

/// Whether the case agrees; `None` where its numbers cannot be read as a case.
impl From<Option<bool>> for Verdict {
    ghost use Rattle.std.specs.Prelude.{◌≡◌};
    ghost use Rattle.cases.specs.Verdicts.{verdict_of};

    ghost from_gives = { λ o v. v ≡ verdict_of o };

    fn from(agrees: Option<bool>) -> Verdict {
        match agrees {
            Some(true) => Verdict::Agrees,
            Some(false) => Verdict::Differs,
            None => Verdict::NotACase,
        }
    }
}

/// What an answer says: the refusal's number, 0 for none, and the value, beside a refusal `none`.
pub fn said<T: Copy>(answer: Result<T, Refusal>, none: T) -> (u8, T)
    ensures number { result.0 ≡ refusal_of answer }
    ensures value { result.1 ≡ result_unwrap_or answer none }
{
    match answer {
        Ok(v) => (0, v),
        Err(e) => (e.number(), none),
    }
}

/// Is v from `low` to `high`, both included?
pub fn within(v: i64, low: i64, high: i64) -> bool
    ensures { WhenTrue result (Inside low high v) }
{
    (low..=high).contains(&v)
}

/// Are the numbers from the place `from` up to `to` within `low` and `high`? Where `to` is below `from`, there are none.
pub fn all_within(n: &[i64], from: usize, to: usize, low: i64, high: i64) -> bool
    requires { to ≤ length n.now }
    ensures { WhenTrue result (AllInside low high from to n.now) }
{
    let Some(numbers) = n.get(from..to) else {
        return true;
    };
    numbers.iter().all(|&v| within(v, low, high))
}

/// A number of a line as a field's type; the type's default where it does not fit.
// No `Option`, which no caller would look at: numbers of a header or a pass are tested before they are read, and the record that
// is made of a setup's is compared with them afterwards (`frame_cases::is_record`).
pub fn number<T: Copy + Default + TryFrom<i64, Error = TryFromIntError>>(v: i64) -> T
    ensures { IsNumber T.try_from_gives v result }
{
    T::try_from(v).unwrap_or_default()
}

/// Seven of them, from the number k on.
pub fn seven<T: Copy + Default + TryFrom<i64, Error = TryFromIntError>>(
    n: &[i64],
    k: usize,
) -> [T; 7]
    requires { k + 7 ≤ length n.now }
    ensures { (i : ℕ) (x : T) → i < 7 → slice_get result i ≡ Some x → IsNumber T.try_from_gives (at n.now (k + i)) x }
{
    array::from_fn(|i| number(n[k + i]))
}

/// A size of a line; 0 where the number is none.
// A function of its own: its contract says which size the number is, and `number` says it by the type's range. No `Option`: the
// numbers of a pass, a tile and a run are tested before they are read, and of a count below 0 a load's book says nothing.
pub fn to_usize(v: i64) -> usize
    ensures { IsSize v → result ≡ nat_abs v }
{
    usize::try_from(v).unwrap_or(0)
}

/// A switch is on where its number is not 0.
// A function of its own: what it ensures spares its four callers the proof on signed numbers that `!=` asks for.
pub fn is_on(v: i64) -> bool
    ensures { result ≡ is_on v }
{
    v != 0
}

/// The numbers of a line that has just N, each of 32 bits.
pub fn numbers<const N: usize>(n: &[i64]) -> Option<[i32; N]>
    ensures same { IfSome result (λ r. r ≡ n.now) }
    ensures fit { IfSome result (λ r. (k : ℕ) → Is32 (at r k)) }
{
    if n.len() != N {
        return None;
    }
    let mut out = [0; N];
    read(n, 0, &mut out)?;
    Some(out)
}

/// Reads the numbers from the place `from` on, as many as `to` has elements.
pub fn read<T: Copy + TryFrom<i64, Error = TryFromIntError>>(
    n: &[i64],
    from: usize,
    to: &mut [T],
) -> Option<()>
    ensures read { IfSome result (λ _. (k : ℕ) (v : T) → slice_get to.new k ≡ Some v → T.try_from_gives (at n.now (from + k)) (Ok v)) }
{
    let numbers = n.get(from..)?;
    // The index serves both lists: `numbers` may be the shorter, where a `zip` would end and leave the rest unread.
    for (i, v) in to.iter_mut().enumerate() {
        *v = T::try_from(*numbers.get(i)?).ok()?;
    }
    Some(())
}

/// Are the elements of the list the numbers from the place `from` on?
pub fn same<T: Copy + Into<i64>>(list: &[T], n: &[i64], from: usize) -> bool
    ensures { WhenTrue result ((k : ℕ) (v : T) → slice_get list.now k ≡ Some v → T.converts v (at n.now (from + k))) }
{
    let Some(numbers) = n.get(from..) else {
        return false;
    };
    if numbers.len() < list.len() {
        return false;
    }
    list.iter()
        .zip(numbers)
        .all(|(&v, &number)| v.into() == number)
}
