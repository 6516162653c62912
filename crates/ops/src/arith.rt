// The arithmetic and bit operators on values, each with its faults in the order 20, 23, then 22 or 24, then 21.
ghost use Rattle.std.specs.Prelude.{◌≡◌};
ghost use Rattle.std.specs.Int.{w64};
ghost use Rattle.std.proofs.Common.{to_z};
ghost use Rattle.int64.specs.Int as I;
ghost use Rattle.value.specs.Value.{meaning};
ghost use Rattle.value.specs.Answer.{result_of};
ghost use Rattle.value.specs.Seen.{number};
ghost use Rattle.ops.specs.Arith as Ops;
ghost use Rattle.ops.specs.Code.{operate_of};

use faults::Fault;
use value::answer::{Number, number_of};
use value::{Value, of_pattern};

// How an operator goes about it: Add, Sub, Mul on two Ints, or else on Floats; Div on Floats; Mod, the bit operators and the shifts on Ints alone.
#[derive(Clone, Copy)]
pub enum How {
    Either(int64::Op, float::Op),
    Floats(float::Op),
    Ints(int64::Op),
}

#[tactic(auto, unfolding(crate::specs::Arith::from_int))]
fn ints(op: int64::Op, p: u64, q: u64) -> Result<Value, Fault>
    ensures { result_of result ≡ Ops.from_int (I.operate op (to_z w64 p) (to_z w64 q)) }
{
    let r = int64::operate(op, p, q)?;
    Ok(Value::Int(int64::sign::signed(r)))
}

// The conversion rule of arithmetic: the float that a number is.
#[tactic(auto, unfolding(crate::specs::Arith::converted))]
fn float_of(a: Number) -> Option<u64>
    ensures { result ≡ Ops.converted (number a) }
{
    match a {
        Number::Int(p) => float::from_int(p),
        Number::Float(p) => Some(p),
    }
}

#[tactic(auto, unfolding(crate::specs::Arith::floats))]
fn floats(op: float::Op, a: Number, b: Number) -> Result<Value, Fault>
    ensures { result_of result
        ≡ Ops.floats op (Ops.converted (number a)) (Ops.converted (number b)) }
{
    let p = float_of(a).ok_or(Fault::NotExact)?;
    let q = float_of(b).ok_or(Fault::NotExact)?;
    Ok(of_pattern(float::operate(op, p, q)))
}

fn operate_numbers(how: How, a: Number, b: Number) -> Result<Value, Fault>
    ensures { result_of result ≡ operate_of how (number a) (number b) }
{
    match (a, b) {
        (Number::Int(p), Number::Int(q)) => match how {
            How::Either(op, _) | How::Ints(op) => ints(op, p, q),
            How::Floats(op) => floats(op, a, b),
        },
        _ => match how {
            How::Either(_, op) | How::Floats(op) => floats(op, a, b),
            How::Ints(_) => Err(Fault::WrongKind),
        },
    }
}

// Every arithmetic and bit operator. Kinds are looked at before anything is converted: 20 comes before 23.
pub fn operate(how: How, a: Value, b: Value) -> Result<Value, Fault>
    ensures { result_of result ≡ operate_of how (meaning a) (meaning b) }
{
    let x = number_of(a).ok_or(Fault::WrongKind)?;
    let y = number_of(b).ok_or(Fault::WrongKind)?;
    operate_numbers(how, x, y)
}
