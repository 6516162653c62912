// The answer of a leaf, and that of a node from its children's answers, with the operators of `ops`.
ghost use Rattle.std.specs.Prelude.{◌≡◌, ◌≤◌, ◌<◌, length, get_or};
ghost use Rattle.faults.specs.Numbers.{ill_formed};
ghost use Rattle.value.specs.Value as Vs;
ghost use Rattle.value.specs.Value.{datums};
ghost use Rattle.ops.specs.Ops as Ops;
ghost use Rattle.value.specs.Answer as OpsAnswer;
ghost use Rattle.value.specs.Answer.{result_of};
ghost use Rattle.eval.specs.declared.next.Rule.TheVariants.{Unary};
ghost use Rattle.eval.specs.Apply.{both, test};
ghost use Rattle.eval.specs.Steps.{Lends, leaves, alone_of, joined_of};

use crate::next::{Rule, test_of};
use faults::Fault;
use value::Value;
use value::pairs::Pairs;

// The value of local p. `evaluate` has refused every ill-formed pair before.
fn local(p: u64, locals: &Pairs<'_>) -> Result<Value, Fault>
    requires p_in_bounds { p < length locals.now.kinds.now }
    requires lends { Lends locals.now.kinds.now locals.now.payloads.now }
    ensures { result_of result
        ≡ OpsAnswer.is (get_or (datums locals.now.kinds.now locals.now.payloads.now) p Vs.nil) }
{
    locals.read(p as usize)
}

// A literal, or the value of a local.
pub fn leaf(k: u64, p: u64, locals: &Pairs<'_>) -> Result<Value, Fault>
    requires k_bound { k ≤ 5 }
    requires p_in_bounds { k ≡ 5 → p < length locals.now.kinds.now }
    requires lends { Lends locals.now.kinds.now locals.now.payloads.now }
    ensures { result_of result ≡ get_or (leaves (datums locals.now.kinds.now locals.now.payloads.now) p) k (OpsAnswer.fault ill_formed) }
{
    match k {
        table::NIL => Ok(Value::Nil),
        table::TRUE => Ok(Value::Bool(true)),
        table::FALSE => Ok(Value::Bool(false)),
        table::INT => Ok(Value::Int(int64::sign::signed(p))),
        table::FLOAT => Ok(value::of_pattern(p)),
        _ => local(p, locals),
    }
}

// Minus or Not of an answer. Minus is Mul by Int -1, so `binary` has two callers here and stays a call, out of the recursion's frame.
fn unary(k: u64, a: Result<Value, Fault>) -> Result<Value, Fault>
    ensures { result_of result ≡ alone_of Unary k (result_of a) }
{
    let x = a?;
    if k == table::MINUS {
        return ops::binary(table::MUL, x, Value::Int(-1));
    }
    ops::not::not(x)
}

// A binary operator on two answers: left before right, so the left one's fault counts first.
fn binary(k: u64, a: Result<Value, Fault>, b: Result<Value, Fault>) -> Result<Value, Fault>
    ensures { result_of result ≡ both (Ops.binary_of k) (result_of a) (result_of b) }
{
    ops::binary(k, a?, b?)
}

// An answer that has to be a Bool.
fn tested(a: Result<Value, Fault>) -> Result<Value, Fault>
    ensures { result_of result ≡ test (result_of a) }
{
    Ok(Value::Bool(test_of(a)?))
}

// The answer of a node that stopped after its first child.
pub fn alone(r: Rule, k: u64, a: Result<Value, Fault>) -> Result<Value, Fault>
    ensures { result_of result ≡ alone_of r k (result_of a) }
{
    match r {
        Rule::Unary => unary(k, a),
        Rule::Operator => a,
        Rule::And | Rule::Or | Rule::Ternary => tested(a),
    }
}

// The answer of a node that went on.
pub fn joined(
    r: Rule,
    k: u64,
    a: Result<Value, Fault>,
    b: Result<Value, Fault>,
) -> Result<Value, Fault>
    ensures { result_of result ≡ joined_of r k (result_of a) (result_of b) }
{
    match r {
        Rule::Unary => b,
        Rule::Operator => binary(k, a, b),
        Rule::And | Rule::Or => tested(b),
        Rule::Ternary => b,
    }
}
