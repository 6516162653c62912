// Not, of a value and of an answer.
ghost use Rattle.std.specs.Prelude.{◌≡◌};
ghost use Rattle.value.specs.Value.{meaning};
ghost use Rattle.value.specs.Answer.{result_of};
ghost use Rattle.ops.specs.Not.{not_of, negate};

use faults::Fault;
use value::Value;

#[tactic(auto, unfolding(crate::specs::Not::not_of))]
pub fn not(v: Value) -> Result<Value, Fault>
    ensures { result_of result ≡ not_of (meaning v) }
{
    match v {
        Value::Bool(b) => Ok(Value::Bool(!b)),
        _ => Err(Fault::WrongKind),
    }
}

// Not of an answer, for a branch whose sense is turned.
#[tactic(auto, unfolding(crate::specs::Not::negate))]
pub fn negated(r: Result<Value, Fault>) -> Result<Value, Fault>
    ensures { result_of result ≡ negate (result_of r) }
{
    not(r?)
}
