// An instruction as plain numbers, an opcode and five operands: from an instruction (`of_op`), and to its word (`encode`).
#![tactic(auto)]

pub mod encode;
pub mod of_op;
