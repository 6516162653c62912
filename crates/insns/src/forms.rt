// The opcode and the constructor of each of the 77 instructions, in the order of 001 and with its reasons. A constructor answers None where
// an operand does not fit its field.
ghost use Rattle.std.specs.Prelude.{◌≡◌};
ghost use Rattle.insns.specs.Insns.{made_of};
ghost use Rattle.insns.specs.declared.op.Bare.{Bare};
ghost use Rattle.insns.specs.declared.op.One.{One};
ghost use Rattle.insns.specs.declared.op.Two.{Two};
ghost use Rattle.insns.specs.declared.op.Slot.{Slot};
ghost use Rattle.insns.specs.declared.op.Three.{Three};
ghost use Rattle.insns.specs.declared.op.Shift.{Shift};
ghost use Rattle.insns.specs.declared.op.Arith.{Arith};
ghost use Rattle.insns.specs.declared.op.Wide.{Wide};
ghost use Rattle.insns.specs.declared.op.Sense.{Sense};
ghost use Rattle.insns.specs.declared.op.Cmp.{Cmp};
ghost use Rattle.insns.specs.declared.op.Call.{Call};
ghost use Rattle.insns.specs.declared.op.ById.{ById};
ghost use Rattle.insns.specs.declared.op.Op.{Op};

use crate::Insn;
use crate::encode::{
    bit_and_mask_word, by_id_word, call_host_word, call_method_host_word, call_word, clos_get_word,
    clos_new_word, clos_set_word, encode, one_word, rshift_mask_word, shift_word, slot_word,
    three_word, two_word, wide_word,
};
use crate::fields::make;
use crate::op::{Arith, Cmp, Disp, Imm16, Imm40, Op, Sense};

impl Insn {
    pub const PANIC: u8 = 0;

    pub const BREAKPOINT: u8 = 1;

    pub const NOP: u8 = 2;

    pub const LOAD_IMM40: u8 = 3;

    pub const MOV: u8 = 4;

    pub const LOAD_CONST: u8 = 5;

    pub const GET_GLOBAL: u8 = 6;

    pub const SET_GLOBAL: u8 = 7;

    pub const LSHIFT: u8 = 8;

    pub const RSHIFT: u8 = 9;

    pub const BIT_AND: u8 = 10;

    pub const BIT_OR: u8 = 11;

    pub const BIT_XOR: u8 = 12;

    pub const BIT_NOT: u8 = 13;

    pub const LSHIFT_IMM: u8 = 14;

    pub const RSHIFT_IMM: u8 = 15;

    pub const BIT_AND_MASK: u8 = 16;

    pub const RSHIFT_MASK: u8 = 17;

    pub const ADD: u8 = 18;

    pub const SUB: u8 = 19;

    pub const MUL: u8 = 20;

    pub const DIV: u8 = 21;

    pub const MODULO: u8 = 22;

    pub const ADD_IMM16: u8 = 23;

    pub const SUB_IMM16: u8 = 24;

    pub const MUL_IMM16: u8 = 25;

    pub const NOT: u8 = 26;

    pub const CLOS_NEW: u8 = 27;

    pub const CLOS_SET: u8 = 28;

    pub const CLOS_GET: u8 = 29;

    pub const CELL_NEW: u8 = 30;

    pub const CELL_SET: u8 = 31;

    pub const CELL_GET: u8 = 32;

    pub const INSTANCEOF: u8 = 33;

    pub const INSTANCEOF_SUB: u8 = 34;

    pub const GET_FIELD: u8 = 35;

    pub const SET_FIELD: u8 = 36;

    pub const GET_INDEX: u8 = 37;

    pub const SET_INDEX: u8 = 38;

    pub const DICT_NEW: u8 = 39;

    pub const ARR_NEW: u8 = 40;

    pub const ARR_PUSH: u8 = 41;

    pub const BA_CLONE: u8 = 42;

    pub const IF_TRUE: u8 = 43;

    pub const IF_FALSE: u8 = 44;

    pub const JEQ: u8 = 45;

    pub const JNE: u8 = 46;

    pub const JLT: u8 = 47;

    pub const JLE: u8 = 48;

    pub const JGT: u8 = 49;

    pub const JGE: u8 = 50;

    pub const JNLT: u8 = 51;

    pub const JNLE: u8 = 52;

    pub const JNGT: u8 = 53;

    pub const JNGE: u8 = 54;

    pub const JEQ_IMM16: u8 = 55;

    pub const JNE_IMM16: u8 = 56;

    pub const JLT_IMM16: u8 = 57;

    pub const JLE_IMM16: u8 = 58;

    pub const JGT_IMM16: u8 = 59;

    pub const JGE_IMM16: u8 = 60;

    pub const JNLT_IMM16: u8 = 61;

    pub const JNLE_IMM16: u8 = 62;

    pub const JNGT_IMM16: u8 = 63;

    pub const JNGE_IMM16: u8 = 64;

    pub const JMP: u8 = 65;

    pub const CALL_OPND: u8 = 66;

    pub const CALL_HOST: u8 = 67;

    pub const CALL_DIRECT: u8 = 68;

    pub const CALL_PC: u8 = 69;

    pub const CALL_METHOD: u8 = 70;

    pub const CALL_METHOD_HOST: u8 = 71;

    pub const CALL_IDIV_INT: u8 = 72;

    pub const NEW: u8 = 73;

    pub const NEW_KNOWN_CTOR: u8 = 74;

    pub const RET: u8 = 75;

    pub const RET_IMM40: u8 = 76;

    // Halts with an error. Panic is zero so that jumping to uninitialized memory causes panic.
    pub fn panic() -> Option<Insn>
        ensures { result ≡ made_of (Op.Bare Bare.Panic) }
    {
        make(Insn::PANIC, &[])
    }

    // A debugger's breakpoint.
    pub fn breakpoint() -> Option<Insn>
        ensures { result ≡ made_of (Op.Bare Bare.Breakpoint) }
    {
        make(Insn::BREAKPOINT, &[])
    }

    // Can be used for code patching, or to disable breakpoints.
    pub fn nop() -> Option<Insn>
        ensures { result ≡ made_of (Op.Bare Bare.Nop) }
    {
        make(Insn::NOP, &[])
    }

    // Loads a sign-extended immediate as the raw bits of a value: Nil, booleans and Ints of 38 bits, which is what is left once the destination
    // register has its 16 bits. A value is tagged two bits wider than the number it holds, so this is what it takes to carry a 32-bit mask.
    pub fn load_imm40(dst: u16, imm: Imm40) -> Option<Insn>
        ensures { result ≡ made_of (Op.LoadImm40 dst imm) }
    {
        encode(Op::LoadImm40(dst, imm))
    }

    // Copies a value from one register to another.
    pub fn mov(dst: u16, src: u16) -> Option<Insn>
        ensures { result ≡ made_of (Op.Two Two.Mov dst src) }
    {
        two_word(Insn::MOV, dst, src)
    }

    // Loads a constant from a constant slot.
    pub fn load_const(dst: u16, slot: u32) -> Option<Insn>
        ensures { result ≡ made_of (Op.Slot Slot.LoadConst dst slot) }
    {
        slot_word(Insn::LOAD_CONST, dst, slot)
    }

    // Global variables.
    pub fn get_global(dst: u16, idx: u32) -> Option<Insn>
        ensures { result ≡ made_of (Op.Slot Slot.GetGlobal dst idx) }
    {
        slot_word(Insn::GET_GLOBAL, dst, idx)
    }

    pub fn set_global(src: u16, idx: u32) -> Option<Insn>
        ensures { result ≡ made_of (Op.Slot Slot.SetGlobal src idx) }
    {
        slot_word(Insn::SET_GLOBAL, src, idx)
    }

    // Bitwise operations.
    pub fn lshift(dst: u16, a: u16, b: u16) -> Option<Insn>
        ensures { result ≡ made_of (Op.Three Three.Lshift dst a b) }
    {
        three_word(Insn::LSHIFT, dst, a, b)
    }

    pub fn rshift(dst: u16, a: u16, b: u16) -> Option<Insn>
        ensures { result ≡ made_of (Op.Three Three.Rshift dst a b) }
    {
        three_word(Insn::RSHIFT, dst, a, b)
    }

    pub fn bit_and(dst: u16, a: u16, b: u16) -> Option<Insn>
        ensures { result ≡ made_of (Op.Three Three.BitAnd dst a b) }
    {
        three_word(Insn::BIT_AND, dst, a, b)
    }

    pub fn bit_or(dst: u16, a: u16, b: u16) -> Option<Insn>
        ensures { result ≡ made_of (Op.Three Three.BitOr dst a b) }
    {
        three_word(Insn::BIT_OR, dst, a, b)
    }

    pub fn bit_xor(dst: u16, a: u16, b: u16) -> Option<Insn>
        ensures { result ≡ made_of (Op.Three Three.BitXor dst a b) }
    {
        three_word(Insn::BIT_XOR, dst, a, b)
    }

    pub fn bit_not(dst: u16, src: u16) -> Option<Insn>
        ensures { result ≡ made_of (Op.Two Two.BitNot dst src) }
    {
        two_word(Insn::BIT_NOT, dst, src)
    }

    // Shifts by a constant amount. The generator emits these only for an amount below the word size.
    pub fn lshift_imm(dst: u16, a: u16, shift: u8) -> Option<Insn>
        ensures { result ≡ made_of (Op.Shift Shift.Left dst a shift) }
    {
        shift_word(Insn::LSHIFT_IMM, dst, a, shift)
    }

    pub fn rshift_imm(dst: u16, a: u16, shift: u8) -> Option<Insn>
        ensures { result ≡ made_of (Op.Shift Shift.Right dst a shift) }
    {
        shift_word(Insn::RSHIFT_IMM, dst, a, shift)
    }

    // And with a constant mask, given as a run of `len` set bits starting at bit `lo`. Encoding the run rather than the value is what lets a 32-bit
    // mask fit alongside two registers. The generator keeps the run inside a fixnum.
    pub fn bit_and_mask(dst: u16, a: u16, lo: u8, len: u8) -> Option<Insn>
        ensures { result ≡ made_of (Op.BitAndMask dst a lo len) }
    {
        bit_and_mask_word(Insn::BIT_AND_MASK, dst, a, lo, len)
    }

    // Shifts right by a constant, then masks the result. Extracting a field out of a packed word is common enough to be worth one instruction.
    pub fn rshift_mask(dst: u16, a: u16, shift: u8, lo: u8, len: u8) -> Option<Insn>
        ensures { result ≡ made_of (Op.RshiftMask dst a shift lo len) }
    {
        rshift_mask_word(Insn::RSHIFT_MASK, dst, a, shift, lo, len)
    }

    // Arithmetic operations.
    pub fn add(dst: u16, a: u16, b: u16) -> Option<Insn>
        ensures { result ≡ made_of (Op.Three Three.Add dst a b) }
    {
        three_word(Insn::ADD, dst, a, b)
    }

    pub fn sub(dst: u16, a: u16, b: u16) -> Option<Insn>
        ensures { result ≡ made_of (Op.Three Three.Sub dst a b) }
    {
        three_word(Insn::SUB, dst, a, b)
    }

    pub fn mul(dst: u16, a: u16, b: u16) -> Option<Insn>
        ensures { result ≡ made_of (Op.Three Three.Mul dst a b) }
    {
        three_word(Insn::MUL, dst, a, b)
    }

    pub fn div(dst: u16, a: u16, b: u16) -> Option<Insn>
        ensures { result ≡ made_of (Op.Three Three.Div dst a b) }
    {
        three_word(Insn::DIV, dst, a, b)
    }

    pub fn modulo(dst: u16, a: u16, b: u16) -> Option<Insn>
        ensures { result ≡ made_of (Op.Three Three.Modulo dst a b) }
    {
        three_word(Insn::MODULO, dst, a, b)
    }

    // The same with a 16-bit literal.
    pub fn add_imm16(dst: u16, a: u16, imm: Imm16) -> Option<Insn>
        ensures { result ≡ made_of (Op.Arith Arith.Plus dst a imm) }
    {
        encode(Op::Arith(Arith::Plus, dst, a, imm))
    }

    pub fn sub_imm16(dst: u16, a: u16, imm: Imm16) -> Option<Insn>
        ensures { result ≡ made_of (Op.Arith Arith.Minus dst a imm) }
    {
        encode(Op::Arith(Arith::Minus, dst, a, imm))
    }

    pub fn mul_imm16(dst: u16, a: u16, imm: Imm16) -> Option<Insn>
        ensures { result ≡ made_of (Op.Arith Arith.Times dst a imm) }
    {
        encode(Op::Arith(Arith::Times, dst, a, imm))
    }

    // Logical negation of a boolean.
    pub fn not(dst: u16, src: u16) -> Option<Insn>
        ensures { result ≡ made_of (Op.Two Two.Not dst src) }
    {
        two_word(Insn::NOT, dst, src)
    }

    // Closures.
    pub fn clos_new(dst: u16, fun_id: u32, num_slots: u16) -> Option<Insn>
        ensures { result ≡ made_of (Op.ClosNew dst fun_id num_slots) }
    {
        clos_new_word(Insn::CLOS_NEW, dst, fun_id, num_slots)
    }

    pub fn clos_set(clos: u16, src: u16, idx: u16) -> Option<Insn>
        ensures { result ≡ made_of (Op.ClosSet clos src idx) }
    {
        clos_set_word(Insn::CLOS_SET, clos, src, idx)
    }

    pub fn clos_get(dst: u16, idx: u16) -> Option<Insn>
        ensures { result ≡ made_of (Op.ClosGet dst idx) }
    {
        clos_get_word(Insn::CLOS_GET, dst, idx)
    }

    // Mutable cells. A new cell starts out holding nil.
    pub fn cell_new(dst: u16) -> Option<Insn>
        ensures { result ≡ made_of (Op.One One.CellNew dst) }
    {
        one_word(Insn::CELL_NEW, dst)
    }

    pub fn cell_set(cell: u16, src: u16) -> Option<Insn>
        ensures { result ≡ made_of (Op.Two Two.CellSet cell src) }
    {
        two_word(Insn::CELL_SET, cell, src)
    }

    pub fn cell_get(dst: u16, cell: u16) -> Option<Insn>
        ensures { result ≡ made_of (Op.Two Two.CellGet dst cell) }
    {
        two_word(Insn::CELL_GET, dst, cell)
    }

    // Whether a value is an instance of a class that has no subclasses; below, of a class or one of its subclasses.
    pub fn instanceof(dst: u16, val: u16, class_id: u32) -> Option<Insn>
        ensures { result ≡ made_of (Op.Wide Wide.Instanceof dst val class_id) }
    {
        wide_word(Insn::INSTANCEOF, dst, val, class_id)
    }

    pub fn instanceof_sub(dst: u16, val: u16, class_id: u32) -> Option<Insn>
        ensures { result ≡ made_of (Op.Wide Wide.InstanceofSub dst val class_id) }
    {
        wide_word(Insn::INSTANCEOF_SUB, dst, val, class_id)
    }

    // The field name, class id and slot index all live in the cache entry, which is what keeps these within one word.
    pub fn get_field(dst: u16, obj: u16, cache: u32) -> Option<Insn>
        ensures { result ≡ made_of (Op.Wide Wide.GetField dst obj cache) }
    {
        wide_word(Insn::GET_FIELD, dst, obj, cache)
    }

    pub fn set_field(obj: u16, src: u16, cache: u32) -> Option<Insn>
        ensures { result ≡ made_of (Op.Wide Wide.SetField obj src cache) }
    {
        wide_word(Insn::SET_FIELD, obj, src, cache)
    }

    // Indexed elements.
    pub fn get_index(dst: u16, arr: u16, idx: u16) -> Option<Insn>
        ensures { result ≡ made_of (Op.Three Three.GetIndex dst arr idx) }
    {
        three_word(Insn::GET_INDEX, dst, arr, idx)
    }

    pub fn set_index(arr: u16, idx: u16, src: u16) -> Option<Insn>
        ensures { result ≡ made_of (Op.Three Three.SetIndex arr idx src) }
    {
        three_word(Insn::SET_INDEX, arr, idx, src)
    }

    // A new dictionary.
    pub fn dict_new(dst: u16) -> Option<Insn>
        ensures { result ≡ made_of (Op.One One.DictNew dst) }
    {
        one_word(Insn::DICT_NEW, dst)
    }

    // Arrays.
    pub fn arr_new(dst: u16, capacity: u32) -> Option<Insn>
        ensures { result ≡ made_of (Op.Slot Slot.ArrNew dst capacity) }
    {
        slot_word(Insn::ARR_NEW, dst, capacity)
    }

    pub fn arr_push(arr: u16, val: u16) -> Option<Insn>
        ensures { result ≡ made_of (Op.Two Two.ArrPush arr val) }
    {
        two_word(Insn::ARR_PUSH, arr, val)
    }

    // Clones a bytearray.
    pub fn ba_clone(dst: u16, src: u16) -> Option<Insn>
        ensures { result ≡ made_of (Op.Two Two.BaClone dst src) }
    {
        two_word(Insn::BA_CLONE, dst, src)
    }

    // Jumps if the register holds true; below, if it holds false.
    pub fn if_true(val: u16, disp: Disp) -> Option<Insn>
        ensures { result ≡ made_of (Op.If Sense.Yes val disp) }
    {
        encode(Op::If(Sense::Yes, val, disp))
    }

    pub fn if_false(val: u16, disp: Disp) -> Option<Insn>
        ensures { result ≡ made_of (Op.If Sense.No val disp) }
    {
        encode(Op::If(Sense::No, val, disp))
    }

    // The displacement takes the 24 bits left over by the two registers, which is more range than any function will need.
    pub fn jeq(a: u16, b: u16, disp: Disp) -> Option<Insn>
        ensures { result ≡ made_of (Op.Jump Cmp.Eq a b disp) }
    {
        encode(Op::Jump(Cmp::Eq, a, b, disp))
    }

    pub fn jne(a: u16, b: u16, disp: Disp) -> Option<Insn>
        ensures { result ≡ made_of (Op.Jump Cmp.Ne a b disp) }
    {
        encode(Op::Jump(Cmp::Ne, a, b, disp))
    }

    pub fn jlt(a: u16, b: u16, disp: Disp) -> Option<Insn>
        ensures { result ≡ made_of (Op.Jump Cmp.Lt a b disp) }
    {
        encode(Op::Jump(Cmp::Lt, a, b, disp))
    }

    pub fn jle(a: u16, b: u16, disp: Disp) -> Option<Insn>
        ensures { result ≡ made_of (Op.Jump Cmp.Le a b disp) }
    {
        encode(Op::Jump(Cmp::Le, a, b, disp))
    }

    pub fn jgt(a: u16, b: u16, disp: Disp) -> Option<Insn>
        ensures { result ≡ made_of (Op.Jump Cmp.Gt a b disp) }
    {
        encode(Op::Jump(Cmp::Gt, a, b, disp))
    }

    pub fn jge(a: u16, b: u16, disp: Disp) -> Option<Insn>
        ensures { result ≡ made_of (Op.Jump Cmp.Ge a b disp) }
    {
        encode(Op::Jump(Cmp::Ge, a, b, disp))
    }

    // The inverses of the ordered comparisons. NaN is unordered, so `a < b` and `a >= b` are both false for it and neither is the negation of the
    // other. A test that has to branch on a comparison failing needs its own instruction rather than the opposite comparison.
    pub fn jnlt(a: u16, b: u16, disp: Disp) -> Option<Insn>
        ensures { result ≡ made_of (Op.Jump Cmp.Nlt a b disp) }
    {
        encode(Op::Jump(Cmp::Nlt, a, b, disp))
    }

    pub fn jnle(a: u16, b: u16, disp: Disp) -> Option<Insn>
        ensures { result ≡ made_of (Op.Jump Cmp.Nle a b disp) }
    {
        encode(Op::Jump(Cmp::Nle, a, b, disp))
    }

    pub fn jngt(a: u16, b: u16, disp: Disp) -> Option<Insn>
        ensures { result ≡ made_of (Op.Jump Cmp.Ngt a b disp) }
    {
        encode(Op::Jump(Cmp::Ngt, a, b, disp))
    }

    pub fn jnge(a: u16, b: u16, disp: Disp) -> Option<Insn>
        ensures { result ≡ made_of (Op.Jump Cmp.Nge a b disp) }
    {
        encode(Op::Jump(Cmp::Nge, a, b, disp))
    }

    // The same comparisons against an integer literal, which saves the load of the constant into a register. The immediate takes the room that the
    // second register leaves, so the word is no bigger. A literal on the left is mirrored into one of these by the generator.
    pub fn jeq_imm16(a: u16, imm: Imm16, disp: Disp) -> Option<Insn>
        ensures { result ≡ made_of (Op.JumpImm Cmp.Eq a imm disp) }
    {
        encode(Op::JumpImm(Cmp::Eq, a, imm, disp))
    }

    pub fn jne_imm16(a: u16, imm: Imm16, disp: Disp) -> Option<Insn>
        ensures { result ≡ made_of (Op.JumpImm Cmp.Ne a imm disp) }
    {
        encode(Op::JumpImm(Cmp::Ne, a, imm, disp))
    }

    pub fn jlt_imm16(a: u16, imm: Imm16, disp: Disp) -> Option<Insn>
        ensures { result ≡ made_of (Op.JumpImm Cmp.Lt a imm disp) }
    {
        encode(Op::JumpImm(Cmp::Lt, a, imm, disp))
    }

    pub fn jle_imm16(a: u16, imm: Imm16, disp: Disp) -> Option<Insn>
        ensures { result ≡ made_of (Op.JumpImm Cmp.Le a imm disp) }
    {
        encode(Op::JumpImm(Cmp::Le, a, imm, disp))
    }

    pub fn jgt_imm16(a: u16, imm: Imm16, disp: Disp) -> Option<Insn>
        ensures { result ≡ made_of (Op.JumpImm Cmp.Gt a imm disp) }
    {
        encode(Op::JumpImm(Cmp::Gt, a, imm, disp))
    }

    pub fn jge_imm16(a: u16, imm: Imm16, disp: Disp) -> Option<Insn>
        ensures { result ≡ made_of (Op.JumpImm Cmp.Ge a imm disp) }
    {
        encode(Op::JumpImm(Cmp::Ge, a, imm, disp))
    }

    pub fn jnlt_imm16(a: u16, imm: Imm16, disp: Disp) -> Option<Insn>
        ensures { result ≡ made_of (Op.JumpImm Cmp.Nlt a imm disp) }
    {
        encode(Op::JumpImm(Cmp::Nlt, a, imm, disp))
    }

    pub fn jnle_imm16(a: u16, imm: Imm16, disp: Disp) -> Option<Insn>
        ensures { result ≡ made_of (Op.JumpImm Cmp.Nle a imm disp) }
    {
        encode(Op::JumpImm(Cmp::Nle, a, imm, disp))
    }

    pub fn jngt_imm16(a: u16, imm: Imm16, disp: Disp) -> Option<Insn>
        ensures { result ≡ made_of (Op.JumpImm Cmp.Ngt a imm disp) }
    {
        encode(Op::JumpImm(Cmp::Ngt, a, imm, disp))
    }

    pub fn jnge_imm16(a: u16, imm: Imm16, disp: Disp) -> Option<Insn>
        ensures { result ≡ made_of (Op.JumpImm Cmp.Nge a imm disp) }
    {
        encode(Op::JumpImm(Cmp::Nge, a, imm, disp))
    }

    // The unconditional jump.
    pub fn jmp(disp: Disp) -> Option<Insn>
        ensures { result ≡ made_of (Op.Jmp disp) }
    {
        encode(Op::Jmp(disp))
    }

    // Calls a function operand. The callee sits in start_reg + argc, just past the arguments: naming it there rather than in an operand is what leaves
    // room for the cache, and it keeps the return value in start_reg like every other call.
    pub fn call_opnd(start_reg: u16, argc: u8, cache: u32) -> Option<Insn>
        ensures { result ≡ made_of (Op.Call Call.Opnd start_reg argc cache) }
    {
        call_word(Insn::CALL_OPND, start_reg, argc, cache)
    }

    // Calls a known host function.
    pub fn call_host(host_fn: u16, start_reg: u16, argc: u8) -> Option<Insn>
        ensures { result ≡ made_of (Op.CallHost host_fn start_reg argc) }
    {
        call_host_word(Insn::CALL_HOST, host_fn, start_reg, argc)
    }

    // Calls a known function by its id. This gets optimized into call_pc once the callee has been compiled.
    pub fn call_direct(fun: u32, start_reg: u16, argc: u8) -> Option<Insn>
        ensures { result ≡ made_of (Op.ById ById.Direct fun start_reg argc) }
    {
        by_id_word(Insn::CALL_DIRECT, fun, start_reg, argc)
    }

    // The callee is statically known, so there is nothing to guard on. There is a cache entry because the parameters do not all fit into one word.
    pub fn call_pc(start_reg: u16, argc: u8, cache: u32) -> Option<Insn>
        ensures { result ≡ made_of (Op.Call Call.Pc start_reg argc cache) }
    {
        call_word(Insn::CALL_PC, start_reg, argc, cache)
    }

    // Calls a method on the object in start_reg. The method name, and the class it was last looked up on, live in the cache entry.
    pub fn call_method(start_reg: u16, argc: u8, cache: u32) -> Option<Insn>
        ensures { result ≡ made_of (Op.Call Call.Method start_reg argc cache) }
    {
        call_word(Insn::CALL_METHOD, start_reg, argc, cache)
    }

    // Calls a host method, guarded on the type tag of the value in start_reg. The guard is an immediate, so a miss costs no loads.
    pub fn call_method_host(start_reg: u16, argc: u8, type_tag: u8, cache: u32) -> Option<Insn>
        ensures { result ≡ made_of (Op.CallMethodHost start_reg argc type_tag cache) }
    {
        call_method_host_word(Insn::CALL_METHOD_HOST, start_reg, argc, type_tag, cache)
    }

    // Integer division, specialized from a call_method. It takes the same operands, so that going back is a write of the opcode.
    pub fn call_idiv_int(start_reg: u16, argc: u8, cache: u32) -> Option<Insn>
        ensures { result ≡ made_of (Op.Call Call.IdivInt start_reg argc cache) }
    {
        call_word(Insn::CALL_IDIV_INT, start_reg, argc, cache)
    }

    // Creating a class instance runs a constructor, so it is a call.
    pub fn new(class_id: u32, start_reg: u16, argc: u8) -> Option<Insn>
        ensures { result ≡ made_of (Op.ById ById.Fresh class_id start_reg argc) }
    {
        by_id_word(Insn::NEW, class_id, start_reg, argc)
    }

    pub fn new_known_ctor(start_reg: u16, argc: u8, cache: u32) -> Option<Insn>
        ensures { result ≡ made_of (Op.Call Call.KnownCtor start_reg argc cache) }
    {
        call_word(Insn::NEW_KNOWN_CTOR, start_reg, argc, cache)
    }

    // Returns the value found in a register.
    pub fn ret(src: u16) -> Option<Insn>
        ensures { result ≡ made_of (Op.One One.Ret src) }
    {
        one_word(Insn::RET, src)
    }

    // Returns an immediate as the raw bits of a value, covering the same range load_imm40 does.
    pub fn ret_imm40(imm: Imm40) -> Option<Insn>
        ensures { result ≡ made_of (Op.RetImm40 imm) }
    {
        encode(Op::RetImm40(imm))
    }
}
