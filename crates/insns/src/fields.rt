// The fields of a word. A field has a size, 2 to the power of its width, and bits below that size; it is given here as the two numbers.
// An operand that is silently truncated gives a wrong instruction rather than a failure, so every operand is tested. A signed operand that
// does not fit is given bits past the field, so that one test serves every kind of field.
ghost use Rattle.std.specs.Prelude.{◌≡◌, ◌≤◌, ◌^◌};
ghost use Rattle.insns.specs.Fields.{sizes, make, raw_bits};

use crate::Insn;
use crate::bits::{is_raw, signed_bits};
use crate::op::Imm40;

// The opcode is the low byte: what stands above it is worth so many.
pub const SIZE_OPCODE: u64 = 1 << 8;

// How many numbers a field of so many bits holds. A word with two registers has 24 bits left: a displacement, or an index into a cache.
pub const SIZE_6: u64 = 1 << 6;

pub const SIZE_8: u64 = 1 << 8;

pub const SIZE_12: u64 = 1 << 12;

pub const SIZE_16: u64 = 1 << 16;

pub const SIZE_24: u64 = 1 << 24;

pub const SIZE_32: u64 = 1 << 32;

pub const SIZE_40: u64 = 1 << 40;

// Half of that: a signed field holds -HALF to HALF - 1.
pub const HALF_16: u64 = SIZE_16 / 2;

pub const HALF_24: u64 = SIZE_24 / 2;

pub const HALF_32: u64 = SIZE_32 / 2;

pub const HALF_40: u64 = SIZE_40 / 2;

// The word of an opcode and its fields, each a size and its bits, if every field holds its bits.
pub fn make(op: u8, fields: &[(u64, u64)]) -> Option<Insn>
    requires { sizes fields.now ≤ 2 ^ 56 }
    ensures { result ≡ make op fields.now }
{
    for i in 0..fields.len() {
        let (size, bits) = fields[i];
        if size <= bits {
            return None;
        }
    }
    let mut above = 0;
    for i in (0..fields.len()).rev() {
        let (size, bits) = fields[i];
        above = bits + size * above;
    }
    Some(Insn {
        bits: op as u64 + SIZE_OPCODE * above,
    })
}

// The bits of a 40-bit immediate where they are the raw bits of a value, else a number past the field.
pub fn raw_bits(imm: Imm40) -> u64
    ensures { result ≡ raw_bits imm.raw }
{
    let n = signed_bits(imm.raw, HALF_40);
    if is_raw(n) { n } else { SIZE_40 }
}
