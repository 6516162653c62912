// A decoded instruction, grouped by the operands that it takes, so that a table has 23 lines and not 77. A branch carries its comparison beside two
// registers (Jump), or beside a register and a 16-bit literal (JumpImm). A signed operand is a number of the Rust's type in a struct of its own.

// A 16-bit literal.
#[derive(Clone, Copy)]
pub struct Imm16 {
    pub n: i16,
}

// The raw bits of a value, as a signed number of 40 bits.
#[derive(Clone, Copy)]
pub struct Imm40 {
    pub raw: i64,
}

// A branch displacement: target minus branch position minus one. It is counted in instructions, relative to the one following the branch, so a
// displacement of zero falls through.
#[derive(Clone, Copy)]
pub struct Disp {
    pub by: i32,
}

// no operand
#[derive(Clone, Copy)]
pub enum Bare {
    Panic,
    Breakpoint,
    Nop,
}

// one register
#[derive(Clone, Copy)]
pub enum One {
    CellNew,
    DictNew,
    Ret,
}

// two registers
#[derive(Clone, Copy)]
pub enum Two {
    Mov,
    BitNot,
    Not,
    CellSet,
    CellGet,
    ArrPush,
    BaClone,
}

// a register and a 32-bit number
#[derive(Clone, Copy)]
pub enum Slot {
    LoadConst,
    GetGlobal,
    SetGlobal,
    ArrNew,
}

// three registers
#[derive(Clone, Copy)]
pub enum Three {
    Lshift,
    Rshift,
    BitAnd,
    BitOr,
    BitXor,
    Add,
    Sub,
    Mul,
    Div,
    Modulo,
    GetIndex,
    SetIndex,
}

// two registers and a shift
#[derive(Clone, Copy)]
pub enum Shift {
    Left,
    Right,
}

// two registers and a 16-bit literal
#[derive(Clone, Copy)]
pub enum Arith {
    Plus,
    Minus,
    Times,
}

// two registers and a 24-bit number
#[derive(Clone, Copy)]
pub enum Wide {
    Instanceof,
    InstanceofSub,
    GetField,
    SetField,
}

// a jump on a Bool
#[derive(Clone, Copy)]
pub enum Sense {
    Yes,
    No,
}

// the comparison that a branch makes; `Nlt` holds where `Lt` does not: of a NaN too, where neither `Lt` nor `Ge` does
#[derive(Clone, Copy)]
pub enum Cmp {
    Eq,
    Ne,
    Lt,
    Le,
    Gt,
    Ge,
    Nlt,
    Nle,
    Ngt,
    Nge,
}

// a register, a count and a cache
#[derive(Clone, Copy)]
pub enum Call {
    Opnd,
    Pc,
    Method,
    IdivInt,
    KnownCtor,
}

// a 24-bit number, a register and a count
#[derive(Clone, Copy)]
pub enum ById {
    Direct,
    Fresh,
}

// An instruction without its operands: what an opcode says.
#[derive(Clone, Copy)]
pub enum Form {
    Bare(Bare),
    LoadImm40,
    Two(Two),
    Slot(Slot),
    Three(Three),
    Shift(Shift),
    BitAndMask,
    RshiftMask,
    Arith(Arith),
    ClosNew,
    ClosSet,
    ClosGet,
    One(One),
    Wide(Wide),
    If(Sense),
    Jump(Cmp),
    JumpImm(Cmp),
    Jmp,
    Call(Call),
    CallHost,
    ById(ById),
    CallMethodHost,
    RetImm40,
    Unknown,
}

// A decoded instruction with its operands in declared order.
#[derive(Clone, Copy)]
pub enum Op {
    Bare(Bare),
    LoadImm40(u16, Imm40),
    Two(Two, u16, u16),
    Slot(Slot, u16, u32),
    Three(Three, u16, u16, u16),
    Shift(Shift, u16, u16, u8),
    BitAndMask(u16, u16, u8, u8),
    RshiftMask(u16, u16, u8, u8, u8),
    Arith(Arith, u16, u16, Imm16),
    ClosNew(u16, u32, u16),
    ClosSet(u16, u16, u16),
    ClosGet(u16, u16),
    One(One, u16),
    Wide(Wide, u16, u16, u32),
    If(Sense, u16, Disp),
    Jump(Cmp, u16, u16, Disp),
    JumpImm(Cmp, u16, Imm16, Disp),
    Jmp(Disp),
    Call(Call, u16, u8, u32),
    CallHost(u16, u16, u8),
    ById(ById, u32, u16, u8),
    CallMethodHost(u16, u8, u8, u32),
    RetImm40(Imm40),
}
