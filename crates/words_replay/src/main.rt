// Replays words: operands to a constructor, words to `decode`, branches to `decode::patch`. Writes the answers; tools/oracle/README.md has the layout.
#![tactic(auto)]

use insns::Insn;
use insns::fields::{SIZE_8, SIZE_16, SIZE_32};
use insns::op::{Disp, Imm16, Imm40, Op};
use operands::of_op::{PlainOp, plain_op};
use std::io;
use std::io::{Read, Write};

// An operand of a record as each type. The signed ones are sign-extended to 64 bits.
fn small_of(x: u64) -> u8 {
    (x % SIZE_8) as u8
}

fn reg_of(x: u64) -> u16 {
    (x % SIZE_16) as u16
}

fn wide_of(x: u64) -> u32 {
    (x % SIZE_32) as u32
}

fn imm16_of(x: u64) -> Imm16 {
    Imm16 {
        n: reg_of(x).cast_signed(),
    }
}

fn disp_of(x: u64) -> Disp {
    Disp {
        by: wide_of(x).cast_signed(),
    }
}

fn imm40_of(x: u64) -> Imm40 {
    Imm40 {
        raw: int64::sign::signed(x),
    }
}

// The constructor of each opcode: first up to the operators,
fn operator_word(op: u8, x1: u64, x2: u64, x3: u64, x4: u64, x5: u64) -> Option<Insn> {
    let reg1 = reg_of(x1);
    let imm402 = imm40_of(x2);
    let reg2 = reg_of(x2);
    let wide2 = wide_of(x2);
    let imm163 = imm16_of(x3);
    let reg3 = reg_of(x3);
    let small3 = small_of(x3);
    let small4 = small_of(x4);
    let small5 = small_of(x5);
    match op {
        Insn::PANIC => Insn::panic(),
        Insn::BREAKPOINT => Insn::breakpoint(),
        Insn::NOP => Insn::nop(),
        Insn::LOAD_IMM40 => Insn::load_imm40(reg1, imm402),
        Insn::MOV => Insn::mov(reg1, reg2),
        Insn::LOAD_CONST => Insn::load_const(reg1, wide2),
        Insn::GET_GLOBAL => Insn::get_global(reg1, wide2),
        Insn::SET_GLOBAL => Insn::set_global(reg1, wide2),
        Insn::LSHIFT => Insn::lshift(reg1, reg2, reg3),
        Insn::RSHIFT => Insn::rshift(reg1, reg2, reg3),
        Insn::BIT_AND => Insn::bit_and(reg1, reg2, reg3),
        Insn::BIT_OR => Insn::bit_or(reg1, reg2, reg3),
        Insn::BIT_XOR => Insn::bit_xor(reg1, reg2, reg3),
        Insn::BIT_NOT => Insn::bit_not(reg1, reg2),
        Insn::LSHIFT_IMM => Insn::lshift_imm(reg1, reg2, small3),
        Insn::RSHIFT_IMM => Insn::rshift_imm(reg1, reg2, small3),
        Insn::BIT_AND_MASK => Insn::bit_and_mask(reg1, reg2, small3, small4),
        Insn::RSHIFT_MASK => Insn::rshift_mask(reg1, reg2, small3, small4, small5),
        Insn::ADD => Insn::add(reg1, reg2, reg3),
        Insn::SUB => Insn::sub(reg1, reg2, reg3),
        Insn::MUL => Insn::mul(reg1, reg2, reg3),
        Insn::DIV => Insn::div(reg1, reg2, reg3),
        Insn::MODULO => Insn::modulo(reg1, reg2, reg3),
        Insn::ADD_IMM16 => Insn::add_imm16(reg1, reg2, imm163),
        Insn::SUB_IMM16 => Insn::sub_imm16(reg1, reg2, imm163),
        Insn::MUL_IMM16 => Insn::mul_imm16(reg1, reg2, imm163),
        Insn::NOT => Insn::not(reg1, reg2),
        _ => None,
    }
}

// then those on closures, cells, fields and arrays,
fn object_word(op: u8, x1: u64, x2: u64, x3: u64) -> Option<Insn> {
    let reg1 = reg_of(x1);
    let reg2 = reg_of(x2);
    let wide2 = wide_of(x2);
    let reg3 = reg_of(x3);
    let wide3 = wide_of(x3);
    match op {
        Insn::CLOS_NEW => Insn::clos_new(reg1, wide2, reg3),
        Insn::CLOS_SET => Insn::clos_set(reg1, reg2, reg3),
        Insn::CLOS_GET => Insn::clos_get(reg1, reg2),
        Insn::CELL_NEW => Insn::cell_new(reg1),
        Insn::CELL_SET => Insn::cell_set(reg1, reg2),
        Insn::CELL_GET => Insn::cell_get(reg1, reg2),
        Insn::INSTANCEOF => Insn::instanceof(reg1, reg2, wide3),
        Insn::INSTANCEOF_SUB => Insn::instanceof_sub(reg1, reg2, wide3),
        Insn::GET_FIELD => Insn::get_field(reg1, reg2, wide3),
        Insn::SET_FIELD => Insn::set_field(reg1, reg2, wide3),
        Insn::GET_INDEX => Insn::get_index(reg1, reg2, reg3),
        Insn::SET_INDEX => Insn::set_index(reg1, reg2, reg3),
        Insn::DICT_NEW => Insn::dict_new(reg1),
        Insn::ARR_NEW => Insn::arr_new(reg1, wide2),
        Insn::ARR_PUSH => Insn::arr_push(reg1, reg2),
        Insn::BA_CLONE => Insn::ba_clone(reg1, reg2),
        _ => None,
    }
}

// the branches by one register or two,
fn register_branch(op: u8, x1: u64, x2: u64, x3: u64) -> Option<Insn> {
    let reg1 = reg_of(x1);
    let disp2 = disp_of(x2);
    let reg2 = reg_of(x2);
    let disp3 = disp_of(x3);
    match op {
        Insn::IF_TRUE => Insn::if_true(reg1, disp2),
        Insn::IF_FALSE => Insn::if_false(reg1, disp2),
        Insn::JEQ => Insn::jeq(reg1, reg2, disp3),
        Insn::JNE => Insn::jne(reg1, reg2, disp3),
        Insn::JLT => Insn::jlt(reg1, reg2, disp3),
        Insn::JLE => Insn::jle(reg1, reg2, disp3),
        Insn::JGT => Insn::jgt(reg1, reg2, disp3),
        Insn::JGE => Insn::jge(reg1, reg2, disp3),
        Insn::JNLT => Insn::jnlt(reg1, reg2, disp3),
        Insn::JNLE => Insn::jnle(reg1, reg2, disp3),
        Insn::JNGT => Insn::jngt(reg1, reg2, disp3),
        Insn::JNGE => Insn::jnge(reg1, reg2, disp3),
        _ => None,
    }
}

// those with a literal, and jmp,
fn literal_branch(op: u8, x1: u64, x2: u64, x3: u64) -> Option<Insn> {
    let disp1 = disp_of(x1);
    let reg1 = reg_of(x1);
    let imm162 = imm16_of(x2);
    let disp3 = disp_of(x3);
    match op {
        Insn::JEQ_IMM16 => Insn::jeq_imm16(reg1, imm162, disp3),
        Insn::JNE_IMM16 => Insn::jne_imm16(reg1, imm162, disp3),
        Insn::JLT_IMM16 => Insn::jlt_imm16(reg1, imm162, disp3),
        Insn::JLE_IMM16 => Insn::jle_imm16(reg1, imm162, disp3),
        Insn::JGT_IMM16 => Insn::jgt_imm16(reg1, imm162, disp3),
        Insn::JGE_IMM16 => Insn::jge_imm16(reg1, imm162, disp3),
        Insn::JNLT_IMM16 => Insn::jnlt_imm16(reg1, imm162, disp3),
        Insn::JNLE_IMM16 => Insn::jnle_imm16(reg1, imm162, disp3),
        Insn::JNGT_IMM16 => Insn::jngt_imm16(reg1, imm162, disp3),
        Insn::JNGE_IMM16 => Insn::jnge_imm16(reg1, imm162, disp3),
        Insn::JMP => Insn::jmp(disp1),
        _ => None,
    }
}

// and calls and returns.
fn call_word(op: u8, x1: u64, x2: u64, x3: u64, x4: u64) -> Option<Insn> {
    let imm401 = imm40_of(x1);
    let reg1 = reg_of(x1);
    let wide1 = wide_of(x1);
    let reg2 = reg_of(x2);
    let small2 = small_of(x2);
    let small3 = small_of(x3);
    let wide3 = wide_of(x3);
    let wide4 = wide_of(x4);
    match op {
        Insn::CALL_OPND => Insn::call_opnd(reg1, small2, wide3),
        Insn::CALL_HOST => Insn::call_host(reg1, reg2, small3),
        Insn::CALL_DIRECT => Insn::call_direct(wide1, reg2, small3),
        Insn::CALL_PC => Insn::call_pc(reg1, small2, wide3),
        Insn::CALL_METHOD => Insn::call_method(reg1, small2, wide3),
        Insn::CALL_METHOD_HOST => Insn::call_method_host(reg1, small2, small3, wide4),
        Insn::CALL_IDIV_INT => Insn::call_idiv_int(reg1, small2, wide3),
        Insn::NEW => Insn::new(wide1, reg2, small3),
        Insn::NEW_KNOWN_CTOR => Insn::new_known_ctor(reg1, small2, wide3),
        Insn::RET => Insn::ret(reg1),
        Insn::RET_IMM40 => Insn::ret_imm40(imm401),
        _ => None,
    }
}

fn construct(op: u64, x1: u64, x2: u64, x3: u64, x4: u64, x5: u64) -> Option<Insn> {
    let k = small_of(op);
    if k <= Insn::NOT {
        return operator_word(k, x1, x2, x3, x4, x5);
    }
    if k <= Insn::BA_CLONE {
        return object_word(k, x1, x2, x3);
    }
    if k <= Insn::JNGE {
        return register_branch(k, x1, x2, x3);
    }
    if k <= Insn::JMP {
        return literal_branch(k, x1, x2, x3);
    }
    call_word(k, x1, x2, x3, x4)
}

// An answer: a number and six more, and a 0 that fills the record.
fn write_row<W: Write>(output: &mut W, n: u64, rest: [u64; 6]) -> io::Result<()> {
    replay_io::write_word(output, n)?;
    replay_io::write_words(output, &rest)?;
    replay_io::write_word(output, 0)
}

fn wide(op: u8) -> u64 {
    op as u64
}

// The opcode of a decoded instruction and its operands in declared order.
fn write_plain<W: Write>(output: &mut W, n: u64, p: PlainOp) -> io::Result<()> {
    write_row(output, n, [p.opcode, p.a, p.b, p.c, p.d, p.e])
}

fn write_made<W: Write>(output: &mut W, m: Option<Insn>) -> io::Result<()> {
    let n = wide(insns::number_of(m));
    match m {
        Some(w) => write_row(output, n, [w.bits, 0, 0, 0, 0, 0]),
        None => write_row(output, n, [0; 6]),
    }
}

fn write_decoded<W: Write>(output: &mut W, d: Option<Op>) -> io::Result<()> {
    let n = wide(decode::number_of(d));
    match d {
        Some(i) => write_plain(output, n, plain_op(i)),
        None => write_row(output, n, [0; 6]),
    }
}

// Patches a store of four words, of which n are in use, and writes the number and the store.
fn replay_patch<W: Write>(
    output: &mut W,
    n: u64,
    at: u64,
    target: u64,
    mut store: [u64; 4],
) -> io::Result<()> {
    let n = replay_io::within(n, store.len());
    let p = decode::patch::patch(&mut store[..n], at as usize, target);
    let [d, e, f, g] = store;
    write_row(output, wide(faults::number_of(p)), [d, e, f, g, 0, 0])
}

fn replay<R: Read, W: Write>(input: &mut R, output: &mut W) -> io::Result<()> {
    let mut record = [0u64; 8];
    replay_io::read_words(input, &mut record, 8)?;
    let [job, a, b, c, d, e, f, g] = record;
    match job {
        0 => write_made(output, construct(a, b, c, d, e, f)),
        1 => write_decoded(output, decode::decode(a)),
        _ => replay_patch(output, a, b, c, [d, e, f, g]),
    }
}

fn main(rt: HostRuntime) -> io::Result<()> {
    let mut input = rt.stdin();
    let mut output = rt.stdout();
    let n = replay_io::read_word(&mut input)?;
    for _ in 0..n {
        replay(&mut input, &mut output)?;
    }
    Ok(())
}
