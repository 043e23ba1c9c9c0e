//! What the operators make of values.
ghost use Rattle.std.specs.Prelude.{◌≡◌, ◌&&◌, not, int_lt};
ghost use Rattle.evaluation.specs.declared.value.Value.TheVariants.{Bool, Int};
ghost use Rattle.evaluation.specs.Arithmetic.{sum, difference, quotient};
ghost use Rattle.evaluation.specs.Refusals.{answered};
ghost use Rattle.evaluation.specs.Values.{int_of, truth_of};

use crate::arithmetic::{difference, quotient, sum};
use crate::refusal::EvaluationRefusal;
use crate::value::Value;

pub(crate) fn added(x: Value, y: Value) -> Value
    ensures value { result ≡ Int (sum (int_of x) (int_of y)) }
{
    Value::Int(sum(x.int(), y.int()))
}

pub(crate) fn subtracted(x: Value, y: Value) -> Value
    ensures value { result ≡ Int (difference (int_of x) (int_of y)) }
{
    Value::Int(difference(x.int(), y.int()))
}

pub(crate) fn divided(x: Value, y: Value) -> Result<Value, EvaluationRefusal>
    ensures value { result ≡ answered Int (quotient (int_of x) (int_of y)) }
{
    Ok(Value::Int(quotient(x.int(), y.int())?))
}

pub(crate) fn less(x: Value, y: Value) -> Value
    ensures value { result ≡ Bool (int_lt (int_of x) (int_of y)) }
{
    Value::Bool(x.int() < y.int())
}

pub(crate) fn negated(x: Value) -> Value
    ensures value { result ≡ Bool (not (truth_of x)) }
{
    Value::Bool(!x.truth())
}

pub(crate) fn both_true(x: Value, y: Value) -> Value
    ensures value { result ≡ Bool (truth_of x && truth_of y) }
{
    Value::Bool(x.truth() && y.truth())
}
