// Which instruction an operator or a test becomes: what it takes in of its operands (here), literals by their size (`literal`) and the opcode of an
// operator (`opcodes`). Where no immediate fits, an attempt to fold answers None, and the caller emits the general form.
#![tactic(auto)]

pub mod literal;
pub mod opcodes;

ghost use Rattle.std.specs.Prelude.{◌≡◌};
ghost use Rattle.table.specs.Table.{kind_at};
ghost use Rattle.table.specs.Nodes.{Inner};
ghost use Rattle.table.specs.Tree.{Arith as TreeArith, arith, binary_kind, kind_of, tree};
ghost use Rattle.fold.specs.Fold.{shifted_by, mask_fold, shift_fold, imm_fold, fold_by, takes_shift};
ghost use Rattle.fold.specs.Nodes.{Operator, Comparison, Operand, TestIs, op_fold, pick_of};

use insns::op::{Arith, Cmp, Imm16, Shift};

// An instruction of one register, but for its destination and that register.
#[derive(Clone, Copy)]
pub enum Tail {
    Not,
    Imm(Arith, Imm16),
    Shift(Shift, u8),
    Mask(u8, u8),
    ShiftMask(u8, u8, u8),
}

// What a branch tests of its one register: that it is a Bool, or how it compares with a literal.
#[derive(Clone, Copy)]
pub enum How {
    Bool(bool),
    Imm(Cmp, Imm16),
}

// The amount by which node i shifts to the right, if that is a literal. A constant shift that feeds a mask folds into it, which is what pulling a field
// out of a packed word looks like.
fn shifted_by(nodes: &[u64], i: usize) -> Option<u8>
    requires { Inner nodes.now i 0 }
    ensures { result ≡ shifted_by (tree nodes.now i) }
{
    if table::kind_at(nodes, i) != table::RSHIFT {
        return None;
    }
    let z = crate::literal::const_value(nodes, table::child_1(nodes, i))?;
    crate::literal::amount_of(z)
}

// And with a constant mask folds into the instruction when the mask is a single run of bits, which is what every mask worth folding is.
fn mask_fold(shift: Option<u8>, run: Option<(u8, u8)>) -> Option<Tail>
    ensures { result ≡ mask_fold shift run }
{
    let (lo, len) = run?;
    let Some(k) = shift else {
        return Some(Tail::Mask(lo, len));
    };
    Some(Tail::ShiftMask(k, lo, len))
}

// A shift by a constant amount folds into the instruction.
fn shift_fold(op: Shift, by: Option<u8>) -> Option<Tail>
    ensures { result ≡ shift_fold op by }
{
    Some(Tail::Shift(op, by?))
}

// So does a constant integer that fits an immediate operand.
fn imm_fold(op: Arith, imm: Option<Imm16>) -> Option<Tail>
    ensures { result ≡ imm_fold op imm }
{
    Some(Tail::Imm(op, imm?))
}

// What the binary operator of kind k takes in of the fixnum z on its right, where its left operand is the node a.
fn literal_fold(nodes: &[u64], a: usize, k: u64, z: i64) -> Option<Tail>
    requires { Inner nodes.now a 0 }
    ensures { (o : TreeArith) → kind_of k ≡ binary_kind (arith o) → result ≡ fold_by o (shifted_by (tree nodes.now a)) z }
{
    match k {
        table::BIT_AND => mask_fold(shifted_by(nodes, a), crate::literal::bit_run(z)),
        table::LSHIFT => shift_fold(Shift::Left, crate::literal::amount_of(z)),
        table::RSHIFT => shift_fold(Shift::Right, crate::literal::amount_of(z)),
        table::ADD => imm_fold(Arith::Plus, crate::literal::imm_of(z)),
        table::SUB => imm_fold(Arith::Minus, crate::literal::imm_of(z)),
        table::MUL => imm_fold(Arith::Times, crate::literal::imm_of(z)),
        _ => None,
    }
}

// What the operator at node i takes into its instruction beside one operand. A unary operator has no other operand: Not has an instruction of its own,
// and negation is a multiply by -1, which keeps the numeric rules in one place.
pub fn fold_of(nodes: &[u64], i: usize) -> Option<Tail>
    requires { Operator nodes.now i }
    ensures { result ≡ op_fold (tree nodes.now i) }
{
    let k = table::kind_at(nodes, i);
    if k == table::MINUS {
        return Some(Tail::Imm(Arith::Times, Imm16 { n: -1 }));
    }
    if k == table::NOT {
        return Some(Tail::Not);
    }
    let z = crate::literal::const_value(nodes, table::child_1(nodes, i))?;
    literal_fold(nodes, table::child_2(nodes, i), k, z)
}

// The operand that a fold at node i leaves to be generated: the only one, the left one, or, of a mask that takes in a shift, the shift's left one.
pub fn operand_of(nodes: &[u64], i: usize, tail: Tail) -> usize
    requires operator { Operator nodes.now i }
    requires i_value { op_fold (tree nodes.now i) ≡ Some tail }
    ensures { Operand nodes.now i tail result }
{
    if table::kind_at(nodes, i) <= table::NOT {
        return table::child_1(nodes, i);
    }
    let a = table::child_2(nodes, i);
    if takes_shift(tail) {
        return table::child_2(nodes, a);
    }
    a
}

// Whether an instruction does the work of its left operand too.
fn takes_shift(tail: Tail) -> bool
    ensures { result ≡ takes_shift tail }
{
    matches!(tail, Tail::ShiftMask(_, _, _))
}

// The comparison at node i. An integer literal small enough to encode goes in the instruction rather than a register. A literal on the left is mirrored
// to the right, which is what swapping the comparison around does. Literals have no side effects, so dropping one leaves the order in which the other
// operand is evaluated untouched.
fn compare_of(nodes: &[u64], i: usize, k: u64, sense: bool) -> Option<(usize, How)>
    requires comparison { Comparison nodes.now i }
    requires k_value { k ≡ kind_at nodes.now i }
    ensures { TestIs nodes.now i result (pick_of (tree nodes.now i) sense) }
{
    let b = table::child_1(nodes, i);
    let a = table::child_2(nodes, i);
    if let Some(n) = crate::literal::as_imm16(nodes, b) {
        return Some((a, How::Imm(crate::opcodes::cmp_branch(k, sense), n)));
    }
    let m = crate::literal::as_imm16(nodes, a)?;
    Some((b, How::Imm(crate::opcodes::mirrored_branch(k, sense), m)))
}

// What a branch on node i takes in: a literal of a comparison; any other node is tested whole.
pub fn test_of(nodes: &[u64], i: usize, sense: bool) -> Option<(usize, How)>
    requires { Inner nodes.now i 0 }
    ensures { TestIs nodes.now i result (pick_of (tree nodes.now i) sense) }
{
    let k = table::kind_at(nodes, i);
    if k < table::EQ {
        return Some((i, How::Bool(sense)));
    }
    if table::GE < k {
        return Some((i, How::Bool(sense)));
    }
    compare_of(nodes, i, k, sense)
}
