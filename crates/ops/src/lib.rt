// The operators on values: Minus, Not, and one entry for every binary operator by its node kind. Evaluator and machine call the same ones, so that the two
// can only differ in what they evaluate, and not in what an operator means.
#![tactic(auto)]

mod arith;
mod compare;
pub mod not;

ghost use Rattle.std.specs.Prelude.{◌≡◌};
ghost use Rattle.value.specs.Value.{meaning};
ghost use Rattle.ops.specs.Ops as Ops;
ghost use Rattle.value.specs.Answer.{result_of};

use crate::arith::{How, operate};
use crate::compare::compare;
use faults::Fault;
use int64::order::Cmp;
use value::Value;

// Mul by Int -1.
pub fn minus(v: Value) -> Result<Value, Fault>
    ensures { result_of result ≡ Ops.minus_of (meaning v) }
{
    operate(
        How::Either(int64::Op::Mul, float::Op::Mul),
        v,
        Value::Int(-1),
    )
}

// The binary operator of a node kind. a > b is b < a, and a >= b is b <= a: neither can then fail to agree with Lt and Le, also for a NaN.
pub fn binary(kind: u64, a: Value, b: Value) -> Result<Value, Fault>
    ensures { result_of result ≡ Ops.binary_of kind (meaning a) (meaning b) }
{
    match kind {
        table::BIT_AND => operate(How::Ints(int64::Op::And), a, b),
        table::BIT_OR => operate(How::Ints(int64::Op::Or), a, b),
        table::BIT_XOR => operate(How::Ints(int64::Op::Xor), a, b),
        table::LSHIFT => operate(How::Ints(int64::Op::Shl), a, b),
        table::RSHIFT => operate(How::Ints(int64::Op::Shr), a, b),
        table::ADD => operate(How::Either(int64::Op::Add, float::Op::Add), a, b),
        table::SUB => operate(How::Either(int64::Op::Sub, float::Op::Sub), a, b),
        table::MUL => operate(How::Either(int64::Op::Mul, float::Op::Mul), a, b),
        table::DIV => operate(How::Floats(float::Op::Div), a, b),
        table::MOD => operate(How::Ints(int64::Op::Rem), a, b),
        table::EQ => compare(Cmp::Eq, a, b),
        table::NE => compare(Cmp::Ne, a, b),
        table::LT => compare(Cmp::Lt, a, b),
        table::LE => compare(Cmp::Le, a, b),
        table::GT => compare(Cmp::Lt, b, a),
        table::GE => compare(Cmp::Le, b, a),
        _ => Err(Fault::WrongKind),
    }
}
