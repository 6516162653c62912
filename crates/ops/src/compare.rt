// The comparisons of values. Their one fault is 20.
ghost use Rattle.std.specs.Prelude.{◌≡◌};
ghost use Rattle.value.specs.Value.{meaning};
ghost use Rattle.value.specs.Answer.{result_of, truth};
ghost use Rattle.value.specs.Seen.{number};
ghost use Rattle.ops.specs.Compare as Ops;

use faults::Fault;
use float::standing::stands;
use int64::order::Cmp;
use value::answer::{Number, number_of};
use value::{Value, kind_of, payload_of};

// The comparison with its operands exchanged.
fn mirror(op: Cmp) -> Cmp
    ensures { result ≡ Ops.mirror op }
{
    match op {
        Cmp::Eq | Cmp::Ne => op,
        Cmp::Lt => Cmp::Gt,
        Cmp::Le => Cmp::Ge,
        Cmp::Gt => Cmp::Lt,
        Cmp::Ge => Cmp::Le,
    }
}

#[tactic(auto, unfolding(crate::specs::Compare::compare_numbers, crate::specs::Compare::mixed))]
fn compare_numbers(op: Cmp, a: Number, b: Number) -> bool
    ensures { truth result ≡ Ops.compare_numbers op (number a) (number b) }
{
    match (a, b) {
        (Number::Int(p), Number::Int(q)) => int64::order::compare(op, p, q),
        (Number::Int(p), Number::Float(q)) => stands(op, p, q),
        (Number::Float(p), Number::Int(q)) => stands(mirror(op), q, p),
        (Number::Float(p), Number::Float(q)) => float::order::compare(op, p, q),
    }
}

// Two values of which one is no number: they are equal or not, and have no order.
#[tactic(auto, unfolding(crate::specs::Compare::compare_others))]
fn compare_others(op: Cmp, equal: bool) -> Result<Value, Fault>
    ensures { result_of result ≡ Ops.compare_others op equal }
{
    match op {
        Cmp::Eq => Ok(Value::Bool(equal)),
        Cmp::Ne => Ok(Value::Bool(!equal)),
        Cmp::Lt | Cmp::Le | Cmp::Gt | Cmp::Ge => Err(Fault::WrongKind),
    }
}

// Whether two values lend one pair.
#[tactic(auto, unfolding(crate::specs::Compare::same))]
fn same(a: Value, b: Value) -> bool
    ensures { result ≡ Ops.same (meaning a) (meaning b) }
{
    kind_of(a) == kind_of(b) && payload_of(a) == payload_of(b)
}

pub fn compare(op: Cmp, a: Value, b: Value) -> Result<Value, Fault>
    ensures { result_of result ≡ Ops.compare_of op (meaning a) (meaning b) }
{
    match (number_of(a), number_of(b)) {
        (Some(x), Some(y)) => Ok(Value::Bool(compare_numbers(op, x, y))),
        _ => compare_others(op, same(a, b)),
    }
}
