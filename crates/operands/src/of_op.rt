// An instruction as plain numbers: an opcode and five operands. `rshift_mask` has the most, so five serve all 77 instructions. A signed operand is the
// two's complement pattern of 64 bits; an operand that a form does not have is 0.
ghost use Rattle.std.specs.Prelude.{◌≡◌};
ghost use Rattle.std.specs.Int.{w64};
ghost use Rattle.std.proofs.Common.{of_z};
ghost use Rattle.operands.specs.OfOp.{plain, plain_op};

use insns::Insn;
use insns::encode::{
    arith_op, bare_op, by_id_op, call_op, if_op, jump_imm_op, jump_op, one_op, shift_op, slot_op,
    three_op, two_op, wide_op,
};
use insns::op::{Disp, Imm16, Imm40, Op};

// The opcode and the operands in declared order.
#[derive(Clone, Copy)]
pub struct PlainOp {
    pub opcode: u64,
    pub a: u64,
    pub b: u64,
    pub c: u64,
    pub d: u64,
    pub e: u64,
}

fn imm16(imm: Imm16) -> u64
    ensures { result ≡ of_z w64 imm.n }
{
    int64::sign::pattern(imm.n as i64)
}

fn imm40(imm: Imm40) -> u64
    ensures { result ≡ of_z w64 imm.raw }
{
    int64::sign::pattern(imm.raw)
}

fn disp(disp: Disp) -> u64
    ensures { result ≡ of_z w64 disp.by }
{
    int64::sign::pattern(disp.by as i64)
}

fn plain(opcode: u8, a: u64, b: u64, c: u64, d: u64, e: u64) -> PlainOp
    ensures { result ≡ plain opcode a b c d e }
{
    PlainOp {
        opcode: opcode as u64,
        a: a,
        b: b,
        c: c,
        d: d,
        e: e,
    }
}

// What an instruction is in numbers.
pub fn plain_op(i: Op) -> PlainOp
    ensures { result ≡ plain_op i }
{
    match i {
        Op::Bare(k) => plain(bare_op(k), 0, 0, 0, 0, 0),
        Op::LoadImm40(dst, imm) => plain(Insn::LOAD_IMM40, dst as u64, imm40(imm), 0, 0, 0),
        Op::Two(k, dst, src) => plain(two_op(k), dst as u64, src as u64, 0, 0, 0),
        Op::Slot(k, dst, slot) => plain(slot_op(k), dst as u64, slot as u64, 0, 0, 0),
        Op::Three(k, dst, a, b) => plain(three_op(k), dst as u64, a as u64, b as u64, 0, 0),
        Op::Shift(k, dst, a, n) => plain(shift_op(k), dst as u64, a as u64, n as u64, 0, 0),
        Op::BitAndMask(dst, a, lo, len) => plain(
            Insn::BIT_AND_MASK,
            dst as u64,
            a as u64,
            lo as u64,
            len as u64,
            0,
        ),
        Op::RshiftMask(dst, a, n, lo, len) => plain(
            Insn::RSHIFT_MASK,
            dst as u64,
            a as u64,
            n as u64,
            lo as u64,
            len as u64,
        ),
        Op::Arith(k, dst, a, imm) => plain(arith_op(k), dst as u64, a as u64, imm16(imm), 0, 0),
        Op::ClosNew(dst, fun, num) => plain(
            Insn::CLOS_NEW,
            dst as u64,
            fun as u64,
            num as u64,
            0,
            0,
        ),
        Op::ClosSet(clos, src, idx) => plain(
            Insn::CLOS_SET,
            clos as u64,
            src as u64,
            idx as u64,
            0,
            0,
        ),
        Op::ClosGet(dst, idx) => plain(Insn::CLOS_GET, dst as u64, idx as u64, 0, 0, 0),
        Op::One(k, dst) => plain(one_op(k), dst as u64, 0, 0, 0, 0),
        Op::Wide(k, dst, val, class) => plain(
            wide_op(k),
            dst as u64,
            val as u64,
            class as u64,
            0,
            0,
        ),
        Op::If(k, val, by) => plain(if_op(k), val as u64, disp(by), 0, 0, 0),
        Op::Jump(k, a, b, by) => plain(jump_op(k), a as u64, b as u64, disp(by), 0, 0),
        Op::JumpImm(k, a, imm, by) => plain(jump_imm_op(k), a as u64, imm16(imm), disp(by), 0, 0),
        Op::Jmp(by) => plain(Insn::JMP, disp(by), 0, 0, 0, 0),
        Op::Call(k, start, argc, cache) => plain(
            call_op(k),
            start as u64,
            argc as u64,
            cache as u64,
            0,
            0,
        ),
        Op::CallHost(host, start, argc) => plain(
            Insn::CALL_HOST,
            host as u64,
            start as u64,
            argc as u64,
            0,
            0,
        ),
        Op::ById(k, fun, start, argc) => plain(
            by_id_op(k),
            fun as u64,
            start as u64,
            argc as u64,
            0,
            0,
        ),
        Op::CallMethodHost(start, argc, tag, cache) => plain(
            Insn::CALL_METHOD_HOST,
            start as u64,
            argc as u64,
            tag as u64,
            cache as u64,
            0,
        ),
        Op::RetImm40(imm) => plain(Insn::RET_IMM40, imm40(imm), 0, 0, 0, 0),
    }
}
