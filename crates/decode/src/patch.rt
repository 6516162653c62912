// Aiming a branch word at a target.
ghost use Rattle.std.specs.Prelude.{◌≡◌, ◌%◌, ◌<◌, ◌≤◌, ◌^◌};
ghost use Rattle.decode.specs.Decode.{decode_of};
ghost use Rattle.decode.specs.Patch.{aim_word, patch_of, patch_all};
ghost use Rattle.decode.specs.Aim.{reach_of, aimed_by, unaimed, Place, aim_field};

use crate::decode;
use faults::Fault;
use insns::Insn;
use insns::bits::{magnitude, signed_bits};
use insns::fields::{HALF_24, HALF_32, SIZE_16, SIZE_32, SIZE_OPCODE};
use insns::op::{Cmp, Disp, Imm16, Sense};

// What one of the displacement's field is worth in the word: above the opcode, above one register, above two operands.
const AFTER_OPCODE: u64 = SIZE_OPCODE;

const AFTER_ONE: u64 = SIZE_OPCODE * SIZE_16;

const AFTER_TWO: u64 = SIZE_OPCODE * SIZE_16 * SIZE_16;

// A target from here on is too far from every position in a slice; below it the difference is an i64.
const FAR_TARGET: u64 = 1 << 62;

// A branch without its displacement, as the proofs speak of it: the code changes a branch word as a number.
#[derive(Clone, Copy)]
pub enum Branch {
    If(Sense, u16),
    Jump(Cmp, u16, u16),
    JumpImm(Cmp, u16, Imm16),
    Jmp,
}

// target - at - 1, if 32 bits hold it.
fn displacement(at: u64, target: u64) -> Option<Disp>
    requires { at < 2 ^ 61 }
    ensures { result ≡ reach_of at target }
{
    if FAR_TARGET <= target {
        return None;
    }
    let d = (target as i64) - ((at + 1) as i64);
    if magnitude(d) < HALF_32 {
        return Some(Disp { by: d as i32 });
    }
    None
}

// The word of a branch whose bits below the displacement's field are `low`. A displacement that the field does not hold is too far too.
fn aim_field(low: u64, place: u64, half: u64, r: Option<Disp>) -> Result<u64, Fault>
    requires { Place low place half }
    ensures { result ≡ aim_field low place half r }
{
    let disp = r.ok_or(Fault::TooFar)?;
    let n = signed_bits(disp.by as i64, half);
    if n < 2 * half {
        return Ok(low + place * n);
    }
    Err(Fault::TooFar)
}

// A word of a branch's opcode: it decodes where nothing stands above its fields.
fn aim_branch(w: u64, r: Option<Disp>) -> Result<u64, Fault>
    requires { (43 ≤ w % 256) × (w % 256 ≤ 65) }
    ensures { result ≡ aimed_by (decode_of w) r }
{
    let op = (w % SIZE_OPCODE) as u8;
    if op <= Insn::IF_FALSE {
        if w / AFTER_ONE < SIZE_32 {
            return aim_field(w % AFTER_ONE, AFTER_ONE, HALF_32, r);
        }
        return Err(Fault::Undecoded);
    }
    if op <= Insn::JNGE_IMM16 {
        return aim_field(w % AFTER_TWO, AFTER_TWO, HALF_24, r);
    }
    if w / AFTER_OPCODE < SIZE_32 {
        return aim_field(w % AFTER_OPCODE, AFTER_OPCODE, HALF_32, r);
    }
    Err(Fault::Undecoded)
}

// A word of any other opcode.
fn no_branch(w: u64) -> Result<u64, Fault>
    ensures { result ≡ unaimed (decode_of w) }
{
    match decode(w) {
        Some(_) => Err(Fault::NotBranch),
        None => Err(Fault::Undecoded),
    }
}

// A word is aimed as the number that it is. The opcodes of the branches stand together, from if_true to jmp.
fn aim_word(w: u64, at: u64, target: u64) -> Result<u64, Fault>
    requires { at < 2 ^ 61 }
    ensures { result ≡ aim_word w at target }
{
    let op = (w % SIZE_OPCODE) as u8;
    if op < Insn::IF_TRUE {
        return no_branch(w);
    }
    if Insn::JMP < op {
        return no_branch(w);
    }
    aim_branch(w, displacement(at, target))
}

// Aims the branch at a position at a target. One word is changed, or none.
pub fn patch(words: &mut [u64], at: usize, target: u64) -> Result<(), Fault>
    ensures { (result ≡ (patch_of words.old at target).answer) × (words.new ≡ (patch_of words.old at target).words) }
{
    if words.len() <= at {
        return Err(Fault::NoWord);
    }
    words[at] = aim_word(words[at], at as u64, target)?;
    Ok(())
}

// Aims the branches at a list of positions, from the first to the last, at one target. One that fails stops it: those before it stay patched, it
// and those after it are as they were.
pub fn patch_jumps(words: &mut [u64], jumps: &[u64], target: u64) -> Result<(), Fault>
    ensures { (result ≡ (patch_all words.old jumps.now target).answer)
        × (words.new ≡ (patch_all words.old jumps.now target).words) }
{
    for i in 0..jumps.len() {
        patch(words, jumps[i] as usize, target)?;
    }
    Ok(())
}
