// From an instruction to its word: the fields of each form, the opcode of each instruction, and `encode`, which joins them.
ghost use Rattle.std.specs.Prelude.{◌≡◌, [], ◌∷◌};
ghost use Rattle.insns.specs.Fields.{u, s, raw, make};
ghost use Rattle.insns.specs.Insns.{made_of};
ghost use Rattle.insns.specs.Opcodes.{bare_op, two_op, slot_op, three_op, shift_op, arith_op, one_op, wide_op, if_op, jump_op, jump_imm_op, call_op, by_id_op};

use crate::Insn;
use crate::bits::signed_bits;
use crate::fields::{
    HALF_16, HALF_24, HALF_32, SIZE_6, SIZE_8, SIZE_12, SIZE_16, SIZE_24, SIZE_32, SIZE_40, make,
    raw_bits,
};
use crate::op::{Arith, Bare, ById, Call, Cmp, One, Op, Sense, Shift, Slot, Three, Two, Wide};

pub fn two_word(op: u8, dst: u16, src: u16) -> Option<Insn>
    ensures { result ≡ make op (u 16 dst ∷ u 16 src ∷ []) }
{
    make(op, &[(SIZE_16, dst as u64), (SIZE_16, src as u64)])
}

pub(crate) fn slot_word(op: u8, dst: u16, slot: u32) -> Option<Insn>
    ensures { result ≡ make op (u 16 dst ∷ u 32 slot ∷ []) }
{
    make(op, &[(SIZE_16, dst as u64), (SIZE_32, slot as u64)])
}

pub fn three_word(op: u8, dst: u16, a: u16, b: u16) -> Option<Insn>
    ensures { result ≡ make op (u 16 dst ∷ u 16 a ∷ u 16 b ∷ []) }
{
    make(
        op,
        &[
            (SIZE_16, dst as u64),
            (SIZE_16, a as u64),
            (SIZE_16, b as u64),
        ],
    )
}

pub fn shift_word(op: u8, dst: u16, a: u16, shift: u8) -> Option<Insn>
    ensures { result ≡ make op (u 16 dst ∷ u 16 a ∷ u 6 shift ∷ []) }
{
    make(
        op,
        &[
            (SIZE_16, dst as u64),
            (SIZE_16, a as u64),
            (SIZE_6, shift as u64),
        ],
    )
}

pub(crate) fn bit_and_mask_word(op: u8, dst: u16, a: u16, lo: u8, len: u8) -> Option<Insn>
    ensures { result ≡ make op (u 16 dst ∷ u 16 a ∷ u 6 lo ∷ u 6 len ∷ []) }
{
    make(
        op,
        &[
            (SIZE_16, dst as u64),
            (SIZE_16, a as u64),
            (SIZE_6, lo as u64),
            (SIZE_6, len as u64),
        ],
    )
}

pub(crate) fn rshift_mask_word(op: u8, dst: u16, a: u16, shift: u8, lo: u8, len: u8) -> Option<Insn>
    ensures { result ≡ make op (u 16 dst ∷ u 16 a ∷ u 6 shift ∷ u 6 lo ∷ u 6 len ∷ []) }
{
    make(
        op,
        &[
            (SIZE_16, dst as u64),
            (SIZE_16, a as u64),
            (SIZE_6, shift as u64),
            (SIZE_6, lo as u64),
            (SIZE_6, len as u64),
        ],
    )
}

pub(crate) fn clos_new_word(op: u8, dst: u16, fun: u32, num: u16) -> Option<Insn>
    ensures { result ≡ make op (u 16 dst ∷ u 24 fun ∷ u 12 num ∷ []) }
{
    make(
        op,
        &[
            (SIZE_16, dst as u64),
            (SIZE_24, fun as u64),
            (SIZE_12, num as u64),
        ],
    )
}

pub(crate) fn clos_set_word(op: u8, clos: u16, src: u16, idx: u16) -> Option<Insn>
    ensures { result ≡ make op (u 16 clos ∷ u 16 src ∷ u 12 idx ∷ []) }
{
    make(
        op,
        &[
            (SIZE_16, clos as u64),
            (SIZE_16, src as u64),
            (SIZE_12, idx as u64),
        ],
    )
}

pub(crate) fn clos_get_word(op: u8, dst: u16, idx: u16) -> Option<Insn>
    ensures { result ≡ make op (u 16 dst ∷ u 12 idx ∷ []) }
{
    make(op, &[(SIZE_16, dst as u64), (SIZE_12, idx as u64)])
}

pub fn one_word(op: u8, dst: u16) -> Option<Insn>
    ensures { result ≡ make op (u 16 dst ∷ []) }
{
    make(op, &[(SIZE_16, dst as u64)])
}

pub(crate) fn wide_word(op: u8, dst: u16, val: u16, class: u32) -> Option<Insn>
    ensures { result ≡ make op (u 16 dst ∷ u 16 val ∷ u 24 class ∷ []) }
{
    make(
        op,
        &[
            (SIZE_16, dst as u64),
            (SIZE_16, val as u64),
            (SIZE_24, class as u64),
        ],
    )
}

pub(crate) fn call_word(op: u8, start: u16, argc: u8, cache: u32) -> Option<Insn>
    ensures { result ≡ make op (u 16 start ∷ u 8 argc ∷ u 24 cache ∷ []) }
{
    make(
        op,
        &[
            (SIZE_16, start as u64),
            (SIZE_8, argc as u64),
            (SIZE_24, cache as u64),
        ],
    )
}

pub(crate) fn call_host_word(op: u8, host: u16, start: u16, argc: u8) -> Option<Insn>
    ensures { result ≡ make op (u 16 host ∷ u 16 start ∷ u 8 argc ∷ []) }
{
    make(
        op,
        &[
            (SIZE_16, host as u64),
            (SIZE_16, start as u64),
            (SIZE_8, argc as u64),
        ],
    )
}

pub(crate) fn by_id_word(op: u8, fun: u32, start: u16, argc: u8) -> Option<Insn>
    ensures { result ≡ make op (u 24 fun ∷ u 16 start ∷ u 8 argc ∷ []) }
{
    make(
        op,
        &[
            (SIZE_24, fun as u64),
            (SIZE_16, start as u64),
            (SIZE_8, argc as u64),
        ],
    )
}

pub(crate) fn call_method_host_word(
    op: u8,
    start: u16,
    argc: u8,
    tag: u8,
    cache: u32,
) -> Option<Insn>
    ensures { result ≡ make op (u 16 start ∷ u 8 argc ∷ u 8 tag ∷ u 24 cache ∷ []) }
{
    make(
        op,
        &[
            (SIZE_16, start as u64),
            (SIZE_8, argc as u64),
            (SIZE_8, tag as u64),
            (SIZE_24, cache as u64),
        ],
    )
}

pub fn bare_op(k: Bare) -> u8
    ensures { result ≡ bare_op k }
{
    match k {
        Bare::Panic => Insn::PANIC,
        Bare::Breakpoint => Insn::BREAKPOINT,
        Bare::Nop => Insn::NOP,
    }
}

pub fn two_op(k: Two) -> u8
    ensures { result ≡ two_op k }
{
    match k {
        Two::Mov => Insn::MOV,
        Two::BitNot => Insn::BIT_NOT,
        Two::Not => Insn::NOT,
        Two::CellSet => Insn::CELL_SET,
        Two::CellGet => Insn::CELL_GET,
        Two::ArrPush => Insn::ARR_PUSH,
        Two::BaClone => Insn::BA_CLONE,
    }
}

pub fn slot_op(k: Slot) -> u8
    ensures { result ≡ slot_op k }
{
    match k {
        Slot::LoadConst => Insn::LOAD_CONST,
        Slot::GetGlobal => Insn::GET_GLOBAL,
        Slot::SetGlobal => Insn::SET_GLOBAL,
        Slot::ArrNew => Insn::ARR_NEW,
    }
}

pub fn three_op(k: Three) -> u8
    ensures { result ≡ three_op k }
{
    match k {
        Three::Lshift => Insn::LSHIFT,
        Three::Rshift => Insn::RSHIFT,
        Three::BitAnd => Insn::BIT_AND,
        Three::BitOr => Insn::BIT_OR,
        Three::BitXor => Insn::BIT_XOR,
        Three::Add => Insn::ADD,
        Three::Sub => Insn::SUB,
        Three::Mul => Insn::MUL,
        Three::Div => Insn::DIV,
        Three::Modulo => Insn::MODULO,
        Three::GetIndex => Insn::GET_INDEX,
        Three::SetIndex => Insn::SET_INDEX,
    }
}

pub fn shift_op(k: Shift) -> u8
    ensures { result ≡ shift_op k }
{
    match k {
        Shift::Left => Insn::LSHIFT_IMM,
        Shift::Right => Insn::RSHIFT_IMM,
    }
}

pub fn arith_op(k: Arith) -> u8
    ensures { result ≡ arith_op k }
{
    match k {
        Arith::Plus => Insn::ADD_IMM16,
        Arith::Minus => Insn::SUB_IMM16,
        Arith::Times => Insn::MUL_IMM16,
    }
}

pub fn one_op(k: One) -> u8
    ensures { result ≡ one_op k }
{
    match k {
        One::CellNew => Insn::CELL_NEW,
        One::DictNew => Insn::DICT_NEW,
        One::Ret => Insn::RET,
    }
}

pub fn wide_op(k: Wide) -> u8
    ensures { result ≡ wide_op k }
{
    match k {
        Wide::Instanceof => Insn::INSTANCEOF,
        Wide::InstanceofSub => Insn::INSTANCEOF_SUB,
        Wide::GetField => Insn::GET_FIELD,
        Wide::SetField => Insn::SET_FIELD,
    }
}

pub fn if_op(k: Sense) -> u8
    ensures { result ≡ if_op k }
{
    match k {
        Sense::Yes => Insn::IF_TRUE,
        Sense::No => Insn::IF_FALSE,
    }
}

pub fn jump_op(k: Cmp) -> u8
    ensures { result ≡ jump_op k }
{
    match k {
        Cmp::Eq => Insn::JEQ,
        Cmp::Ne => Insn::JNE,
        Cmp::Lt => Insn::JLT,
        Cmp::Le => Insn::JLE,
        Cmp::Gt => Insn::JGT,
        Cmp::Ge => Insn::JGE,
        Cmp::Nlt => Insn::JNLT,
        Cmp::Nle => Insn::JNLE,
        Cmp::Ngt => Insn::JNGT,
        Cmp::Nge => Insn::JNGE,
    }
}

pub fn jump_imm_op(k: Cmp) -> u8
    ensures { result ≡ jump_imm_op k }
{
    match k {
        Cmp::Eq => Insn::JEQ_IMM16,
        Cmp::Ne => Insn::JNE_IMM16,
        Cmp::Lt => Insn::JLT_IMM16,
        Cmp::Le => Insn::JLE_IMM16,
        Cmp::Gt => Insn::JGT_IMM16,
        Cmp::Ge => Insn::JGE_IMM16,
        Cmp::Nlt => Insn::JNLT_IMM16,
        Cmp::Nle => Insn::JNLE_IMM16,
        Cmp::Ngt => Insn::JNGT_IMM16,
        Cmp::Nge => Insn::JNGE_IMM16,
    }
}

pub fn call_op(k: Call) -> u8
    ensures { result ≡ call_op k }
{
    match k {
        Call::Opnd => Insn::CALL_OPND,
        Call::Pc => Insn::CALL_PC,
        Call::Method => Insn::CALL_METHOD,
        Call::IdivInt => Insn::CALL_IDIV_INT,
        Call::KnownCtor => Insn::NEW_KNOWN_CTOR,
    }
}

pub fn by_id_op(k: ById) -> u8
    ensures { result ≡ by_id_op k }
{
    match k {
        ById::Direct => Insn::CALL_DIRECT,
        ById::Fresh => Insn::NEW,
    }
}

// The word of i, if its operands fit their fields.
pub fn encode(i: Op) -> Option<Insn>
    ensures { result ≡ made_of i }
{
    match i {
        Op::Bare(k) => make(bare_op(k), &[]),
        Op::LoadImm40(dst, imm) => make(
            Insn::LOAD_IMM40,
            &[(SIZE_16, dst as u64), (SIZE_40, raw_bits(imm))],
        ),
        Op::Two(k, dst, src) => two_word(two_op(k), dst, src),
        Op::Slot(k, dst, slot) => slot_word(slot_op(k), dst, slot),
        Op::Three(k, dst, a, b) => three_word(three_op(k), dst, a, b),
        Op::Shift(k, dst, a, shift) => shift_word(shift_op(k), dst, a, shift),
        Op::BitAndMask(dst, a, lo, len) => bit_and_mask_word(Insn::BIT_AND_MASK, dst, a, lo, len),
        Op::RshiftMask(dst, a, shift, lo, len) => rshift_mask_word(
            Insn::RSHIFT_MASK,
            dst,
            a,
            shift,
            lo,
            len,
        ),
        Op::Arith(k, dst, a, imm) => make(
            arith_op(k),
            &[
                (SIZE_16, dst as u64),
                (SIZE_16, a as u64),
                (SIZE_16, signed_bits(imm.n as i64, HALF_16)),
            ],
        ),
        Op::ClosNew(dst, fun, num) => clos_new_word(Insn::CLOS_NEW, dst, fun, num),
        Op::ClosSet(clos, src, idx) => clos_set_word(Insn::CLOS_SET, clos, src, idx),
        Op::ClosGet(dst, idx) => clos_get_word(Insn::CLOS_GET, dst, idx),
        Op::One(k, dst) => one_word(one_op(k), dst),
        Op::Wide(k, dst, val, class) => wide_word(wide_op(k), dst, val, class),
        Op::If(k, val, disp) => make(
            if_op(k),
            &[
                (SIZE_16, val as u64),
                (SIZE_32, signed_bits(disp.by as i64, HALF_32)),
            ],
        ),
        Op::Jump(k, a, b, disp) => make(
            jump_op(k),
            &[
                (SIZE_16, a as u64),
                (SIZE_16, b as u64),
                (SIZE_24, signed_bits(disp.by as i64, HALF_24)),
            ],
        ),
        Op::JumpImm(k, a, imm, disp) => make(
            jump_imm_op(k),
            &[
                (SIZE_16, a as u64),
                (SIZE_16, signed_bits(imm.n as i64, HALF_16)),
                (SIZE_24, signed_bits(disp.by as i64, HALF_24)),
            ],
        ),
        Op::Jmp(disp) => make(
            Insn::JMP,
            &[(SIZE_32, signed_bits(disp.by as i64, HALF_32))],
        ),
        Op::Call(k, start, argc, cache) => call_word(call_op(k), start, argc, cache),
        Op::CallHost(host, start, argc) => call_host_word(Insn::CALL_HOST, host, start, argc),
        Op::ById(k, fun, start, argc) => by_id_word(by_id_op(k), fun, start, argc),
        Op::CallMethodHost(start, argc, tag, cache) => call_method_host_word(
            Insn::CALL_METHOD_HOST,
            start,
            argc,
            tag,
            cache,
        ),
        Op::RetImm40(imm) => make(Insn::RET_IMM40, &[(SIZE_40, raw_bits(imm))]),
    }
}
