// What one instruction asks for. It only reads: the step, in the crate `machine`, carries an effect out, so that one place writes and
// a step that stops has written nothing.
#![tactic(auto)]

ghost use Rattle.std.specs.Prelude.{◌≡◌, pos};
ghost use Rattle.value.specs.Answer.{result_of};
ghost use Rattle.insns.specs.declared.op.Op.{Op};
ghost use Rattle.effect.specs.Effect as Fx;
ghost use Rattle.effect.specs.Effect.{held};
ghost use Rattle.effect.specs.Forms as Forms;
ghost use Rattle.effect.specs.Forms.{asked, OfRegisters, OfSlots, OfAny};

use faults::Fault;
use insns::op::{Arith, Bare, Cmp, Disp, Imm16, Imm40, Op, Sense, Shift, Slot, Three, Two};
use ops::binary;
use value::Value;
use value::pairs::Pairs;

// An answer for a register, a displacement with an answer to branch by, the next word, or a stop with its fault.
#[derive(Clone, Copy)]
pub enum Effect {
    Write(u16, Result<Value, Fault>),
    Branch(Disp, Result<Value, Fault>),
    Next,
    Halt(Fault),
}

// The operator of a node kind on what was read. Left before right: the first fault counts.
#[tactic(auto, unfolding(crate::specs::Effect::both))]
fn both(kind: u64, x: Result<Value, Fault>, y: Result<Value, Fault>) -> Result<Value, Fault>
    ensures { result_of result ≡ Fx.both kind (result_of x) (result_of y) }
{
    binary(kind, x?, y?)
}

fn literal(z: i64) -> Result<Value, Fault>
    ensures { result_of result ≡ Fx.literal z }
{
    Ok(Value::Int(z))
}

// A shift amount: it is a count of bits, so never negative.
fn count(n: u8) -> Result<Value, Fault>
    ensures { result_of result ≡ Fx.literal (pos n) }
{
    literal(n as i64)
}

fn literal16(z: Imm16) -> Result<Value, Fault>
    ensures { result_of result ≡ Fx.literal z.n }
{
    literal(z.n as i64)
}

fn mask(lo: u8, len: u8) -> Result<Value, Fault>
    ensures { result_of result ≡ Fx.mask lo len }
{
    literal(int64::sign::signed(int64::mask::mask(lo as u64, len as u64)))
}

// Only raw bits of a value decode, so what is not Nil, False or True is an Int, shifted up by its tag of two bits.
fn raw(z: Imm40) -> Result<Value, Fault>
    ensures { result_of result ≡ Fx.raw_of z.raw }
{
    let n = z.raw;
    let b = int64::sign::pattern(n);
    if b == 1 {
        return Ok(Value::Nil);
    }
    if b == 5 {
        return Ok(Value::Bool(false));
    }
    if b == 9 {
        return Ok(Value::Bool(true));
    }
    literal(n >> 2)
}

fn inverted(r: Result<Value, Fault>) -> Result<Value, Fault>
    ensures { result_of result ≡ Fx.inverted (result_of r) }
{
    ops::not::negated(r)
}

fn if_test(k: Sense, r: Result<Value, Fault>) -> Result<Value, Fault>
    ensures { result_of result ≡ Forms.if_test k (result_of r) }
{
    match k {
        Sense::Yes => r,
        Sense::No => inverted(r),
    }
}

// The node kind of an operator; 0 is not run here.
pub fn three_kind(k: Three) -> u64
    ensures { result ≡ Forms.three_kind k }
{
    match k {
        Three::BitAnd => table::BIT_AND,
        Three::BitOr => table::BIT_OR,
        Three::BitXor => table::BIT_XOR,
        Three::Lshift => table::LSHIFT,
        Three::Rshift => table::RSHIFT,
        Three::Add => table::ADD,
        Three::Sub => table::SUB,
        Three::Mul => table::MUL,
        Three::Div => table::DIV,
        Three::Modulo => table::MOD,
        Three::GetIndex | Three::SetIndex => 0,
    }
}

pub fn arith_kind(k: Arith) -> u64
    ensures { result ≡ Forms.arith_kind k }
{
    match k {
        Arith::Plus => table::ADD,
        Arith::Minus => table::SUB,
        Arith::Times => table::MUL,
    }
}

fn shift_kind(k: Shift) -> u64
    ensures { result ≡ Forms.shift_kind k }
{
    match k {
        Shift::Left => table::LSHIFT,
        Shift::Right => table::RSHIFT,
    }
}

// `jnlt` jumps where `jlt` does not. It is not `jge`: of a NaN neither holds.
fn jump_test(k: Cmp, x: Result<Value, Fault>, y: Result<Value, Fault>) -> Result<Value, Fault>
    ensures { result_of result ≡ Forms.jump_test k (result_of x) (result_of y) }
{
    match k {
        Cmp::Eq => both(table::EQ, x, y),
        Cmp::Ne => both(table::NE, x, y),
        Cmp::Lt => both(table::LT, x, y),
        Cmp::Le => both(table::LE, x, y),
        Cmp::Gt => both(table::GT, x, y),
        Cmp::Ge => both(table::GE, x, y),
        Cmp::Nlt => inverted(both(table::LT, x, y)),
        Cmp::Nle => inverted(both(table::LE, x, y)),
        Cmp::Ngt => inverted(both(table::GT, x, y)),
        Cmp::Nge => inverted(both(table::GE, x, y)),
    }
}

fn bare(k: Bare) -> Effect
    ensures { OfAny (Op.Bare k) (asked result) }
{
    match k {
        Bare::Panic => Effect::Halt(Fault::PanicWord),
        Bare::Breakpoint => Effect::Halt(Fault::NotRun),
        Bare::Nop => Effect::Next,
    }
}

fn load_imm40(d: u16, z: Imm40) -> Effect
    ensures { OfAny (Op.LoadImm40 d z) (asked result) }
{
    Effect::Write(d, raw(z))
}

fn two(k: Two, d: u16, a: u16, registers: Pairs<'_>) -> Effect
    ensures { OfRegisters (held registers.entry.kinds.now registers.entry.payloads.now) (Op.Two k d a) (asked result) }
{
    match k {
        Two::Mov => Effect::Write(d, registers.read(a as usize)),
        Two::Not => Effect::Write(d, inverted(registers.read(a as usize))),
        Two::BitNot | Two::CellSet | Two::CellGet | Two::ArrPush | Two::BaClone => {
            Effect::Halt(Fault::NotRun)
        }
    }
}

fn slot(k: Slot, d: u16, s: u32, slots: Pairs<'_>) -> Effect
    ensures { OfSlots (held slots.entry.kinds.now slots.entry.payloads.now) (Op.Slot k d s) (asked result) }
{
    match k {
        Slot::LoadConst => Effect::Write(d, slots.read(s as usize)),
        Slot::GetGlobal | Slot::SetGlobal | Slot::ArrNew => Effect::Halt(Fault::NotRun),
    }
}

fn three(k: Three, d: u16, a: u16, b: u16, registers: Pairs<'_>) -> Effect
    ensures { OfRegisters (held registers.entry.kinds.now registers.entry.payloads.now) (Op.Three k d a b) (asked result) }
{
    let kind = three_kind(k);
    if kind == 0 {
        return Effect::Halt(Fault::NotRun);
    }
    let x = registers.read(a as usize);
    let y = registers.read(b as usize);
    Effect::Write(d, both(kind, x, y))
}

fn shift(k: Shift, d: u16, a: u16, n: u8, registers: Pairs<'_>) -> Effect
    ensures { OfRegisters (held registers.entry.kinds.now registers.entry.payloads.now) (Op.Shift k d a n) (asked result) }
{
    let x = registers.read(a as usize);
    Effect::Write(d, both(shift_kind(k), x, count(n)))
}

fn bit_and_mask(d: u16, a: u16, lo: u8, len: u8, registers: Pairs<'_>) -> Effect
    ensures { OfRegisters (held registers.entry.kinds.now registers.entry.payloads.now) (Op.BitAndMask d a lo len) (asked result) }
{
    let x = registers.read(a as usize);
    Effect::Write(d, both(table::BIT_AND, x, mask(lo, len)))
}

fn rshift_mask(d: u16, a: u16, n: u8, lo: u8, len: u8, registers: Pairs<'_>) -> Effect
    ensures { OfRegisters (held registers.entry.kinds.now registers.entry.payloads.now) (Op.RshiftMask d a n lo len) (asked result) }
{
    let x = registers.read(a as usize);
    let y = both(table::RSHIFT, x, count(n));
    Effect::Write(d, both(table::BIT_AND, y, mask(lo, len)))
}

fn arith(k: Arith, d: u16, a: u16, z: Imm16, registers: Pairs<'_>) -> Effect
    ensures { OfRegisters (held registers.entry.kinds.now registers.entry.payloads.now) (Op.Arith k d a z) (asked result) }
{
    let x = registers.read(a as usize);
    Effect::Write(d, both(arith_kind(k), x, literal16(z)))
}

fn if_bool(k: Sense, a: u16, z: Disp, registers: Pairs<'_>) -> Effect
    ensures { OfRegisters (held registers.entry.kinds.now registers.entry.payloads.now) (Op.If k a z) (asked result) }
{
    let x = registers.read(a as usize);
    Effect::Branch(z, if_test(k, x))
}

fn jump(k: Cmp, a: u16, b: u16, z: Disp, registers: Pairs<'_>) -> Effect
    ensures { OfRegisters (held registers.entry.kinds.now registers.entry.payloads.now) (Op.Jump k a b z) (asked result) }
{
    let x = registers.read(a as usize);
    let y = registers.read(b as usize);
    Effect::Branch(z, jump_test(k, x, y))
}

fn jump_imm(k: Cmp, a: u16, n: Imm16, z: Disp, registers: Pairs<'_>) -> Effect
    ensures { OfRegisters (held registers.entry.kinds.now registers.entry.payloads.now) (Op.JumpImm k a n z) (asked result) }
{
    let x = registers.read(a as usize);
    Effect::Branch(z, jump_test(k, x, literal16(n)))
}

fn jmp(z: Disp) -> Effect
    ensures { OfAny (Op.Jmp z) (asked result) }
{
    Effect::Branch(z, Ok(Value::Bool(true)))
}

pub fn effect_of(i: Op, registers: Pairs<'_>, slots: Pairs<'_>) -> Effect
    ensures { asked result
        ≡ Fx.effect_of (held registers.entry.kinds.now registers.entry.payloads.now) (held slots.entry.kinds.now slots.entry.payloads.now) i }
{
    match i {
        Op::Bare(k) => bare(k),
        Op::LoadImm40(d, z) => load_imm40(d, z),
        Op::Two(k, d, a) => two(k, d, a, registers),
        Op::Slot(k, d, s) => slot(k, d, s, slots),
        Op::Three(k, d, a, b) => three(k, d, a, b, registers),
        Op::Shift(k, d, a, n) => shift(k, d, a, n, registers),
        Op::BitAndMask(d, a, lo, len) => bit_and_mask(d, a, lo, len, registers),
        Op::RshiftMask(d, a, n, lo, len) => rshift_mask(d, a, n, lo, len, registers),
        Op::Arith(k, d, a, z) => arith(k, d, a, z, registers),
        Op::ClosNew(_, _, _) => Effect::Halt(Fault::NotRun),
        Op::ClosSet(_, _, _) => Effect::Halt(Fault::NotRun),
        Op::ClosGet(_, _) => Effect::Halt(Fault::NotRun),
        Op::One(_, _) => Effect::Halt(Fault::NotRun),
        Op::Wide(_, _, _, _) => Effect::Halt(Fault::NotRun),
        Op::If(k, a, z) => if_bool(k, a, z, registers),
        Op::Jump(k, a, b, z) => jump(k, a, b, z, registers),
        Op::JumpImm(k, a, n, z) => jump_imm(k, a, n, z, registers),
        Op::Jmp(z) => jmp(z),
        Op::Call(_, _, _, _) => Effect::Halt(Fault::NotRun),
        Op::CallHost(_, _, _) => Effect::Halt(Fault::NotRun),
        Op::ById(_, _, _, _) => Effect::Halt(Fault::NotRun),
        Op::CallMethodHost(_, _, _, _) => Effect::Halt(Fault::NotRun),
        Op::RetImm40(_) => Effect::Halt(Fault::NotRun),
    }
}
