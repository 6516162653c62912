// What a call leaves in the caller's result cells: the number of the answer, and 0 in every cell wherever the number is not 0.
ghost use Rattle.std.specs.Prelude.{◌≡◌};
ghost use Rattle.value.specs.Answer.{result_of};
ghost use Rattle.vosemaqe.specs.Results.{dest_of, report_of, evaluated_of, operands_of, encoded_of};

use compile::buffers::Compiled;
use faults::Fault;
use insns::Insn;
use insns::op::Op;
use operands::of_op::{PlainOp, plain_op};
use value::Value;

// The cells of a compile.
#[derive(Clone, Copy)]
pub struct Report {
    pub number: u8,
    pub words: u64,
    pub slots: u64,
    pub register: u64,
    pub frame: u64,
}

// The cells of an evaluation.
#[derive(Clone, Copy)]
pub struct Evaluated {
    pub number: u8,
    pub kind: u64,
    pub payload: u64,
}

// The cells of a decoded word.
#[derive(Clone, Copy)]
pub struct Operands {
    pub number: u8,
    pub plain: PlainOp,
}

// The cell of an encoded word.
#[derive(Clone, Copy)]
pub struct Encoded {
    pub number: u8,
    pub word: u64,
}

// C has no enum with data, so a destination is one number: 0 is none, r + 1 is register r.
pub fn dest_of(dest: u64) -> Option<u64>
    ensures { result ≡ dest_of dest }
{
    dest.checked_sub(1)
}

impl From<Result<Compiled, Fault>> for Report {
    ghost from_gives = { λ c r. r ≡ report_of c };

    fn from(c: Result<Compiled, Fault>) -> Report {
        match c {
            Ok(made) => Report {
                number: 0,
                words: made.words as u64,
                slots: made.slots as u64,
                register: u64::from(made.register),
                frame: u64::from(made.frame),
            },
            Err(f) => Report {
                number: f.number(),
                words: 0,
                slots: 0,
                register: 0,
                frame: 0,
            },
        }
    }
}

impl From<Result<Value, Fault>> for Evaluated {
    ghost from_gives = { λ a r. r ≡ evaluated_of (result_of a) };

    fn from(a: Result<Value, Fault>) -> Evaluated {
        match a {
            Ok(v) => Evaluated {
                number: 0,
                kind: u64::from(value::kind_of(v)),
                payload: value::payload_of(v),
            },
            Err(f) => Evaluated {
                number: f.number(),
                kind: 0,
                payload: 0,
            },
        }
    }
}

impl From<Option<Op>> for Operands {
    ghost from_gives = { λ d r. r ≡ operands_of d };

    fn from(d: Option<Op>) -> Operands {
        let number = decode::number_of(d);
        match d {
            Some(i) => Operands {
                number,
                plain: plain_op(i),
            },
            None => Operands {
                number,
                plain: PlainOp {
                    opcode: 0,
                    a: 0,
                    b: 0,
                    c: 0,
                    d: 0,
                    e: 0,
                },
            },
        }
    }
}

impl From<Option<Insn>> for Encoded {
    ghost from_gives = { λ m r. r ≡ encoded_of m };

    fn from(m: Option<Insn>) -> Encoded {
        let number = insns::number_of(m);
        match m {
            Some(w) => Encoded {
                number,
                word: w.bits,
            },
            None => Encoded { number, word: 0 },
        }
    }
}
