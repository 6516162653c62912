// Appending words, and the instructions that make a value of operands that are in registers.
ghost use Rattle.std.specs.Prelude.{◌≡◌};
ghost use Rattle.insns.specs.Insns.{made_of};
ghost use Rattle.insns.specs.declared.op.Op.{Op};
ghost use Rattle.emit.specs.State.{store_d, emit_d};
ghost use Rattle.fold.specs.Fold.{tail_op};
ghost use Rattle.emit.specs.Steps.{load_op, put_d, tail_to, three_to, move_to};
ghost use Rattle.emit.specs.Read.{Steps, After};

use crate::state::{St, dest};
use faults::Fault;
use fold::Tail;
use insns::Insn;
use insns::encode::{shift_op, shift_word, three_op, three_word};
use insns::op::{Imm40, Three};

// The immediates.
pub(crate) const NIL: Imm40 = Imm40 { raw: 1 };

pub(crate) const FALSE: Imm40 = Imm40 { raw: 5 };

pub(crate) const TRUE: Imm40 = Imm40 { raw: 9 };

// Appends one word, if it could be built and the buffer is not full. The register d, whose value the word makes, is handed on.
pub(crate) fn emit(code: &mut [u64], made: Option<Insn>, d: u16, st: St) -> Result<(u16, St), Fault>
    ensures { Steps code.old code.new st result (store_d made d) }
{
    let w = made.ok_or(Fault::NoFit)?;
    let n = st.count;
    if code.len() <= n {
        return Err(Fault::NoRoom);
    }
    code[n] = w.bits;
    Ok((d, St { count: n + 1, ..st }))
}

// Loads an immediate into the register d.
pub(crate) fn emit_load(code: &mut [u64], raw: Imm40, d: u16, st: St) -> Result<(u16, St), Fault>
    ensures { Steps code.old code.new st result (emit_d (Op.LoadImm40 d raw) d) }
{
    emit(code, crate::build::load_imm40(d, raw), d, st)
}

// Loads an immediate into the register that is asked for, or a new one.
pub(crate) fn put_load(
    code: &mut [u64],
    raw: Imm40,
    dst: Option<u16>,
    st: St,
) -> Result<(u16, St), Fault>
    ensures { Steps code.old code.new st result (put_d (load_op raw) dst) }
{
    let (d, s) = dest(dst, st)?;
    emit_load(code, raw, d, s)
}

// The instruction of a fold.
fn tail_word(tail: Tail, d: u16, a: u16) -> Option<Insn>
    ensures { result ≡ made_of (tail_op tail d a) }
{
    match tail {
        Tail::Not => Insn::not(d, a),
        Tail::Imm(op, n) => crate::build::arith(op, d, a, n),
        Tail::Shift(op, k) => shift_word(shift_op(op), d, a, k),
        Tail::Mask(lo, len) => Insn::bit_and_mask(d, a, lo, len),
        Tail::ShiftMask(k, lo, len) => Insn::rshift_mask(d, a, k, lo, len),
    }
}

// The operand is in a register: an instruction that takes in all the rest. What the operand took is given back first, so that the result may take its
// place.
pub fn put_tail(
    code: &mut [u64],
    tail: Tail,
    dst: Option<u16>,
    top: u16,
    x: Result<(u16, St), Fault>,
) -> Result<(u16, St), Fault>
    ensures { After code.old code.new x result (tail_to tail dst top) }
{
    let (a, s) = x?;
    let (d, t) = dest(dst, s.free_to(top))?;
    emit(code, tail_word(tail, d, a), d, t)
}

// Both operands are in registers, the left one in a: the general form. Only now is the destination written, when the last operand has been read.
pub fn put_three(
    code: &mut [u64],
    op: Three,
    a: u16,
    dst: Option<u16>,
    top: u16,
    y: Result<(u16, St), Fault>,
) -> Result<(u16, St), Fault>
    ensures { After code.old code.new y result (three_to op a dst top) }
{
    let (b, s) = y?;
    let (d, t) = dest(dst, s.free_to(top))?;
    emit(code, three_word(three_op(op), d, a, b), d, t)
}

// The value is in a register: a mov to the register d, unless it is there already.
pub fn put_mov(
    code: &mut [u64],
    d: u16,
    top: u16,
    x: Result<(u16, St), Fault>,
) -> Result<(u16, St), Fault>
    ensures { After code.old code.new x result (move_to d top) }
{
    let (a, s) = x?;
    let t = s.free_to(top);
    if a == d {
        return Ok((d, t));
    }
    emit(code, Insn::mov(d, a), d, t)
}
