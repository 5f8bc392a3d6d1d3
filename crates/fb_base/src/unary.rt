//! Operators of one operand.
ghost use Rattle.std.specs.Prelude.{◌≢◌, Err};
ghost use Rattle.fb_base.specs.Operators.{Answered, value_of_unary};

use crate::operator::{Op1, OpError};
use crate::value::Value;

/// The value that an operator gives for one operand, by the table of operators. It takes no memory.
///
/// An operand whose kind doesn't fit the operator is a fault too.
#[tactic(auto, unfolding(crate::specs::Operators::value_of_unary))]
pub fn apply1(op: Op1, a: &Value) -> Result<Value, OpError>
    ensures value { Answered (value_of_unary op a.now) result }
    ensures decided { result ≢ Err OpError.Memory }
{
    match (op, a) {
        (Op1::Neg, Value::Int(n)) => match n.checked_neg() {
            Some(n) => Ok(Value::Int(n)),
            None => Err(OpError::Fault),
        },
        (Op1::Not, Value::Bool(b)) => Ok(Value::Bool(!b)),
        (Op1::Len, Value::Text(text)) => Ok(Value::Int(text.bytes().len() as i64)),
        (Op1::Len, Value::List(items)) => Ok(Value::Int(items.len() as i64)),
        _ => Err(OpError::Fault),
    }
}
