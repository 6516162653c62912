// The words that the generator makes, field by field: going through a decoded instruction would cost a copy in memory. A branch is made with the
// displacement 0, which is filled in when the jump is patched to its target, so its word is that of its other operands.
ghost use Rattle.std.specs.Prelude.{◌≡◌};
ghost use Rattle.insns.specs.Insns.{made_of};
ghost use Rattle.insns.specs.declared.op.Op.{Op};
ghost use Rattle.emit.specs.Jump.{to_patch, sense_of};
ghost use Rattle.emit.specs.Read.{literal_bits};

use insns::Insn;
use insns::bits::signed_bits;
use insns::encode::{arith_op, jump_imm_op, jump_op, one_word, two_word};
use insns::fields::{make, raw_bits};
use insns::op::{Arith, Cmp, Imm16, Imm40};

// The sizes of a register's field, of a literal's and of a raw immediate's.
const REGISTER: u64 = 65536;

const LITERAL: u64 = 65536;

const RAW: u64 = 1099511627776;

pub fn load_imm40(dst: u16, imm: Imm40) -> Option<Insn>
    ensures { result ≡ made_of (Op.LoadImm40 dst imm) }
{
    make(
        Insn::LOAD_IMM40,
        &[(REGISTER, dst as u64), (RAW, raw_bits(imm))],
    )
}

// The bits of a literal in its field.
fn literal_bits(imm: Imm16) -> u64
    ensures { result ≡ literal_bits imm }
{
    signed_bits(imm.n as i64, LITERAL / 2)
}

pub fn arith(k: Arith, dst: u16, a: u16, imm: Imm16) -> Option<Insn>
    ensures { result ≡ made_of (Op.Arith k dst a imm) }
{
    make(
        arith_op(k),
        &[
            (REGISTER, dst as u64),
            (REGISTER, a as u64),
            (LITERAL, literal_bits(imm)),
        ],
    )
}

// if_true, or if_false.
pub fn test(sense: bool, val: u16) -> Option<Insn>
    ensures { result ≡ made_of (Op.If (sense_of sense) val to_patch) }
{
    if sense {
        return one_word(Insn::IF_TRUE, val);
    }
    one_word(Insn::IF_FALSE, val)
}

pub fn jump(k: Cmp, a: u16, b: u16) -> Option<Insn>
    ensures { result ≡ made_of (Op.Jump k a b to_patch) }
{
    two_word(jump_op(k), a, b)
}

pub fn jump_imm(k: Cmp, a: u16, imm: Imm16) -> Option<Insn>
    ensures { result ≡ made_of (Op.JumpImm k a imm to_patch) }
{
    make(
        jump_imm_op(k),
        &[(REGISTER, a as u64), (LITERAL, literal_bits(imm))],
    )
}

pub fn jmp() -> Option<Insn>
    ensures { result ≡ made_of (Op.Jmp to_patch) }
{
    make(Insn::JMP, &[])
}
