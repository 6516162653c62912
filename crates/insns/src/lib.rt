// The instruction word: its opcodes and constructors (`forms`), its fields (`fields`, `bits`), the decoded instruction (`op`) and its word (`encode`).
#![tactic(auto)]

pub mod bits;
pub mod encode;
pub mod fields;
mod forms;
pub mod op;

ghost use Rattle.std.specs.Prelude.{◌≡◌};
ghost use Rattle.insns.specs.Fields.{made_number};

use faults::Fault;

// An instruction is one 64-bit word: the opcode in the low byte, the operands packed above it, unused bits 0.
#[derive(Clone, Copy)]
pub struct Insn {
    pub bits: u64,
}

// The number of a constructor's answer.
pub fn number_of(made: Option<Insn>) -> u8
    ensures { result ≡ made_number made }
{
    match made {
        Some(_) => 0,
        None => Fault::NoFit.number(),
    }
}
