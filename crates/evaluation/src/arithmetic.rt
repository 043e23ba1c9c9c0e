//! Arithmetic on 64-bit Ints.
ghost use Rattle.std.specs.Prelude.{◌≡◌};
ghost use Rattle.evaluation.specs.Arithmetic.{sum, difference, quotient};

use crate::refusal::EvaluationRefusal;

/// The sum, or the end of the range that it passes.
pub fn sum(x: i64, y: i64) -> i64
    ensures sum { result ≡ sum x y }
{
    x.saturating_add(y)
}

/// The difference, or the end of the range that it passes.
pub fn difference(x: i64, y: i64) -> i64
    ensures difference { result ≡ difference x y }
{
    x.saturating_sub(y)
}

/// The quotient, cut toward zero; a divisor of 0 is refused.
pub fn quotient(x: i64, y: i64) -> Result<i64, EvaluationRefusal>
    ensures quotient { result ≡ quotient x y }
{
    if y == 0 {
        return Err(EvaluationRefusal::ZeroDivisor);
    }
    // one quotient alone passes the range: that of the least number by -1
    Ok(x.checked_div(y).unwrap_or(i64::MAX))
}
