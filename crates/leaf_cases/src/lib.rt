// One function for each kind of case: the library's answer to the line's inputs, against the
// answer that the line states. Beside each judge stands what it reads of a line, if it can: whether
// the two agree.
#![tactic(auto)]

ghost use Rattle.std.specs.Prelude.{◌≡◌, true, ◌≤◌, nat_abs, Some, IfSome};
ghost use Rattle.levels.specs.Answer.{says};
ghost use Rattle.cases.specs.Verdicts.{WhenAgrees};
ghost use Rattle.leaf_cases.specs.Agrees.{Stated, ProjectAgrees, ScaleAgrees, QuantizeAgrees, DequantizeAgrees, HintAgrees, SmoothAgrees, GapAgrees};
ghost use Rattle.mv.specs.Averages.{SumOf};

use cases::Verdict;
use levels::{Mv, OrderHint, QMv, Refusal};

// Does the answer have this refusal number and this vector?
fn says(answer: Result<Mv, Refusal>, refusal: i32, stated: Mv) -> bool
    ensures { result ≡ true → Stated (says answer) refusal stated }
{
    let (number, v) = cases::said(answer, Mv { y: 0, x: 0 });
    i32::from(number) == refusal && v == stated
}

fn project(n: &[i64]) -> Option<bool>
    ensures { result ≡ Some true → ProjectAgrees n.now }
{
    let [y, x, num, den, min, max, refusal, stated_y, stated_x] = cases::numbers::<9>(n)?;
    let answer = mv::mv_projection(Mv { y, x }, num, den, min, max);
    let stated = Mv {
        y: stated_y,
        x: stated_x,
    };
    Some(says(answer, refusal, stated))
}

/// Judges a line of mv_projection: a vector, the four numbers of the call, the refusal's number and the vector that is answered.
pub fn judge_project(n: &[i64]) -> Verdict
    ensures { WhenAgrees result (ProjectAgrees n.now) }
{
    project(n).into()
}

fn scale(n: &[i64]) -> Option<bool>
    ensures { result ≡ Some true → ScaleAgrees n.now }
{
    let [y, x, sf, refusal, stated_y, stated_x] = cases::numbers::<6>(n)?;
    let answer = mv::scale_mv(Mv { y, x }, sf);
    let stated = Mv {
        y: stated_y,
        x: stated_x,
    };
    Some(says(answer, refusal, stated))
}

/// Judges a line of scale_mv: a vector, a factor, the refusal's number and the vector that is answered.
pub fn judge_scale(n: &[i64]) -> Verdict
    ensures { WhenAgrees result (ScaleAgrees n.now) }
{
    scale(n).into()
}

fn quantize(n: &[i64]) -> Option<bool>
    ensures { result ≡ Some true → QuantizeAgrees n.now }
{
    let [y, x, stated_y, stated_x] = cases::numbers::<4>(n)?;
    let stated_y = i8::try_from(stated_y).ok()?;
    let stated_x = i8::try_from(stated_x).ok()?;
    let q = mv::quantize_mv(Mv { y, x });
    let stated = QMv {
        y: stated_y,
        x: stated_x,
    };
    Some(q == stated)
}

/// Judges a line of quantize_mv: a vector and the packed one.
pub fn judge_quantize(n: &[i64]) -> Verdict
    ensures { WhenAgrees result (QuantizeAgrees n.now) }
{
    quantize(n).into()
}

fn dequantize(n: &[i64]) -> Option<bool>
    ensures { result ≡ Some true → DequantizeAgrees n.now }
{
    let [y, x, refusal, stated_y, stated_x] = cases::numbers::<5>(n)?;
    let y = i8::try_from(y).ok()?;
    let x = i8::try_from(x).ok()?;
    let answer = mv::dequantize_mv(QMv { y, x });
    let stated = Mv {
        y: stated_y,
        x: stated_x,
    };
    Some(says(answer, refusal, stated))
}

/// Judges a line of dequantize_mv: a packed vector, the refusal's number and the vector.
pub fn judge_dequantize(n: &[i64]) -> Verdict
    ensures { WhenAgrees result (DequantizeAgrees n.now) }
{
    dequantize(n).into()
}

fn hint(n: &[i64]) -> Option<bool>
    ensures { result ≡ Some true → HintAgrees n.now }
{
    let &[nbits, a, b, refusal, stated] = n else {
        return None;
    };
    let nbits = u32::try_from(nbits).ok()?;
    let a = OrderHint(u8::try_from(a).ok()?);
    let b = OrderHint(u8::try_from(b).ok()?);
    let stated = i32::try_from(stated).ok()?;
    let (number, diff) = cases::said(env::get_poc_diff(nbits, a, b), 0);
    Some(i64::from(number) == refusal && diff == stated)
}

/// Judges a line of get_poc_diff: hint bits, two hints, the refusal's number and the difference.
pub fn judge_hint(n: &[i64]) -> Verdict
    ensures { WhenAgrees result (HintAgrees n.now) }
{
    hint(n).into()
}

// The count of cells of an average, 1 to `most`, where the sum is one of that many components.
fn cells_of(n: i64, most: u8, sum: i64) -> Option<usize>
    ensures some { IfSome result (λ cells. 1 ≤ cells) }
    ensures most { IfSome result (λ cells. cells ≤ most) }
    ensures sum { IfSome result (λ cells. SumOf cells sum) }
    ensures stated { IfSome result (λ cells. cells ≡ nat_abs n) }
{
    if n < 1 || i64::from(most) < n || sum < -(n * 2147483648) || n * 2147483647 < sum {
        return None;
    }
    usize::try_from(n).ok()
}

// It and `gap` are two functions: each has its own average, count of cells and definition, and would hand all three to a common one.
fn smooth(n: &[i64]) -> Option<bool>
    ensures { result ≡ Some true → SmoothAgrees n.now }
{
    let &[n, sum, stated] = n else {
        return None;
    };
    let cells = cells_of(n, 5, sum)?;
    let stated = i32::try_from(stated).ok()?;
    Some(mv::smooth_average(sum, cells) == stated)
}

/// Judges a line of the average of smoothing: how many cells, the sum, the average.
pub fn judge_smooth(n: &[i64]) -> Verdict
    ensures { WhenAgrees result (SmoothAgrees n.now) }
{
    smooth(n).into()
}

fn gap(n: &[i64]) -> Option<bool>
    ensures { result ≡ Some true → GapAgrees n.now }
{
    let &[n, sum, stated] = n else {
        return None;
    };
    let cells = cells_of(n, 4, sum)?;
    let stated = i32::try_from(stated).ok()?;
    Some(mv::gap_average(sum, cells) == stated)
}

/// Judges a line of the average of a gap: how many cells, the sum, the average.
pub fn judge_gap(n: &[i64]) -> Verdict
    ensures { WhenAgrees result (GapAgrees n.now) }
{
    gap(n).into()
}
