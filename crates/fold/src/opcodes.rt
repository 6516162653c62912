// The instruction of an operator, by the number of its kind: that of two registers, or the branch of a comparison. Callers ask only for such
// kinds; what any other kind gives is left open (docs/OPEN.md).
ghost use Rattle.std.specs.Prelude.{◌≡◌};
ghost use Rattle.table.specs.Tree.{Arith as TreeArith, Cmp as TreeCmp, arith, cmp, binary_kind, kind_of};
ghost use Rattle.fold.specs.Opcodes.{three_of, mirror, branch_of};
ghost use Rattle.fold.specs.Nodes.{is_junction};

use insns::op::{Cmp, Three};

// The instruction of two registers for the binary operator of kind k.
pub fn three_of(k: u64) -> Three
    ensures { (o : TreeArith) → kind_of k ≡ binary_kind (arith o) → result ≡ three_of o }
{
    match k {
        table::BIT_AND => Three::BitAnd,
        table::BIT_OR => Three::BitOr,
        table::BIT_XOR => Three::BitXor,
        table::LSHIFT => Three::Lshift,
        table::RSHIFT => Three::Rshift,
        table::ADD => Three::Add,
        table::SUB => Three::Sub,
        table::MUL => Three::Mul,
        table::DIV => Three::Div,
        _ => Three::Modulo,
    }
}

// The comparison that holds when the operands are swapped, for a literal on the left of a compare and branch. Swapping is exact even for NaN: a < b and
// b > a are both false when either side is unordered. It is negating a comparison that NaN breaks, which is what the jn* instructions are for.
fn mirror_cmp(k: u64) -> u64
    ensures { (c : TreeCmp) → kind_of k ≡ binary_kind (cmp c) → kind_of result ≡ binary_kind (cmp (mirror c)) }
{
    match k {
        table::LT => table::GT,
        table::LE => table::GE,
        table::GT => table::LT,
        table::GE => table::LE,
        _ => k,
    }
}

// The branch that a comparison compiles to, for either sense of the test; it serves two registers and a register with a literal alike
// (`cmp_branch_insn` and `cmp_branch_imm` in the Rust). NaN is unordered, so an ordered comparison and its opposite are both false for it, and neither is
// the negation of the other: each sense has its own instruction. Equality does invert exactly, NaN included, so != serves as the negation of ==.
pub fn cmp_branch(k: u64, sense: bool) -> Cmp
    ensures { (c : TreeCmp) → kind_of k ≡ binary_kind (cmp c) → result ≡ branch_of c sense }
{
    if sense {
        return match k {
            table::EQ => Cmp::Eq,
            table::NE => Cmp::Ne,
            table::LT => Cmp::Lt,
            table::LE => Cmp::Le,
            table::GT => Cmp::Gt,
            _ => Cmp::Ge,
        };
    }
    match k {
        table::EQ => Cmp::Ne,
        table::NE => Cmp::Eq,
        table::LT => Cmp::Nlt,
        table::LE => Cmp::Nle,
        table::GT => Cmp::Ngt,
        _ => Cmp::Nge,
    }
}

// The same branch with the operands swapped.
pub(crate) fn mirrored_branch(k: u64, sense: bool) -> Cmp
    ensures { (c : TreeCmp) → kind_of k ≡ binary_kind (cmp c) → result ≡ branch_of (mirror c) sense }
{
    cmp_branch(mirror_cmp(k), sense)
}

// Whether a kind is And or Or, whose branch is made of their operands' branches.
pub fn is_junction(k: u64) -> bool
    ensures { result ≡ is_junction k }
{
    if k < table::AND {
        return false;
    }
    k <= table::OR
}
