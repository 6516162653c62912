// How an operator sees an operand: as a number, or not.
ghost use Rattle.std.specs.Prelude.{◌≡◌};
ghost use Rattle.value.specs.Value.{meaning};
ghost use Rattle.value.specs.Seen.{as_number, shown};

use crate::Value;

// A value as a number, by its pattern: a Float is one case here, where `Value` has one for its NaNs.
#[derive(Clone, Copy)]
pub enum Number {
    Int(u64),
    Float(u64),
}

#[tactic(auto, unfolding(crate::specs::Seen::as_number))]
pub fn number_of(v: Value) -> Option<Number>
    ensures { shown result ≡ as_number (meaning v) }
{
    match v {
        Value::Int(n) => Some(Number::Int(int64::sign::pattern(n))),
        Value::Float(x) => Some(Number::Float(float::bits::pattern(x))),
        Value::Nan(p) => Some(Number::Float(p)),
        Value::Nil | Value::Bool(_) => None,
    }
}
