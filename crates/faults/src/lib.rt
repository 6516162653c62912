// The faults of document 01, with their meanings and their numbers, and the limits: the one place where they stand.
#![tactic(auto)]

ghost use Rattle.std.specs.Prelude.{◌≡◌};
ghost use Rattle.faults.specs.Numbers.{number, number_of};

// Why a call answers no value. Each has the number that a C caller gets; 0 is none.
#[derive(Clone, Copy, Debug, PartialEq, Eq)]
pub enum Fault {
    // The table is empty, not a multiple of 4 words, or over MAX_NODES nodes.
    BadShape = 1,
    // Unknown kind, non-zero payload, a Float that is not finite, missing child, wrong first or depth, or the last node's first is not 0.
    BadNode = 2,
    // Depth over MAX_DEPTH.
    TooDeep = 3,
    // A Ref or the destination is not below the base.
    NotLocal = 4,
    // Parameters plus locals, or an allocation, pass MAX_REGISTERS.
    NoRegister = 5,
    // No constant slot is left.
    NoSlot = 6,
    // No room for a word, or for a jump in a caller's jump list.
    NoRoom = 7,
    // A displacement is outside its field when patching.
    TooFar = 8,
    // An operand does not fit its field.
    NoFit = 9,
    // A word that does not decode.
    Undecoded = 10,
    // Patching: the word is not a branch.
    NotBranch = 11,
    // Patching: no word at the branch position.
    NoWord = 12,
    // Wrong kind of value.
    WrongKind = 20,
    // Integer result outside 64 bits signed.
    Overflow = 21,
    // Mod by zero.
    ModByZero = 22,
    // An Int outside -2^53..2^53 meets a Float in Add, Sub or Mul, or stands in Div.
    NotExact = 23,
    // Shift amount outside 0..63.
    BadShift = 24,
    // The budget is spent.
    BudgetSpent = 25,
    // A register, slot or taken target is out of range.
    OutOfRange = 26,
    // A panic word.
    PanicWord = 27,
    // An opcode that is not run here.
    NotRun = 28,
    // An ill-formed value was lent.
    IllFormed = 29,
}

impl Fault {
    // Its number.
    pub fn number(self) -> u8
        ensures { result ≡ number self }
    {
        self as u8
    }
}

// The number of an answer: that of its fault, or 0.
pub fn number_of(answer: Result<(), Fault>) -> u8
    ensures { result ≡ number_of answer }
{
    match answer {
        Ok(()) => 0,
        Err(fault) => fault.number(),
    }
}

// The most nodes that a table may have.
pub const MAX_NODES: usize = 65536;

// The greatest depth of a node.
pub const MAX_DEPTH: u64 = 200;

// The most registers: of parameters and locals together, and of a frame.
pub const MAX_REGISTERS: u64 = 65535;
