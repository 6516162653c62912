// Values and their lent form: a kind and a payload.
#![tactic(auto)]

pub mod answer;
pub mod pairs;

ghost use Rattle.std.specs.Prelude.{◌≡◌};
ghost use Rattle.value.specs.Value as Vs;

// The kinds of a lent pair.
pub const NIL: u8 = 0;

pub const BOOL: u8 = 1;

pub const INT: u8 = 2;

pub const FLOAT: u8 = 3;

// The logic has one NaN and no payload for it, so a NaN is kept as its pattern: a move must not lose its bits.
#[derive(Clone, Copy)]
pub enum Value {
    Nil,
    Bool(bool),
    Int(i64),
    Float(f64),
    Nan(u64),
}

// The Float of a pattern.
pub fn of_pattern(p: u64) -> Value
    ensures { Vs.meaning result ≡ Vs.float p }
{
    if float::bits::is_nan(p) {
        return Value::Nan(p);
    }
    Value::Float(float::bits::number(p))
}

// The value that a pair is lent for.
#[tactic(auto, unfolding(crate::specs::Value::of_pair))]
pub fn from_pair(kind: u8, payload: u64) -> Option<Value>
    ensures { Vs.read_of result ≡ Vs.of_pair kind payload }
{
    match kind {
        NIL => (payload == 0).then_some(Value::Nil),
        BOOL => (payload < 2).then_some(Value::Bool(payload == 1)),
        INT => Some(Value::Int(int64::sign::signed(payload))),
        FLOAT => Some(of_pattern(payload)),
        _ => None,
    }
}

// The pair that a value is lent as.
pub fn kind_of(v: Value) -> u8
    ensures { result ≡ Vs.kind_of (Vs.meaning v) }
{
    match v {
        Value::Nil => NIL,
        Value::Bool(_) => BOOL,
        Value::Int(_) => INT,
        Value::Float(_) | Value::Nan(_) => FLOAT,
    }
}

pub fn payload_of(v: Value) -> u64
    ensures { result ≡ Vs.payload_of (Vs.meaning v) }
{
    match v {
        Value::Nil => 0,
        Value::Bool(b) => b as u64,
        Value::Int(n) => int64::sign::pattern(n),
        Value::Float(x) => float::bits::pattern(x),
        Value::Nan(p) => p,
    }
}
