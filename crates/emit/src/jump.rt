// Branches and patching. The position of a branch is listed until its target is known; the lists stand in one lent slice, and a place is free again once
// its jump is patched.
ghost use Rattle.std.specs.Prelude.{◌≡◌, ◌+◌, ◌≤◌, length, take, drop};
ghost use Rattle.insns.specs.Insns.{made_of};
ghost use Rattle.emit.specs.State.{emit_d};
ghost use Rattle.emit.specs.Read.{Steps, After};
ghost use Rattle.emit.specs.Jump.{jmp_op, leap_d, patch_d, patches_d, how_op, one_to, pair_to, turn_d, true_d, bool_d};
ghost use Rattle.emit.specs.Lists.{Jumping, AfterJumping, Joinable, Joined, Counted};

use crate::state::St;
use crate::word::{FALSE, TRUE, emit, emit_load};
use faults::Fault;
use fold::How;
use insns::Insn;
use insns::op::Cmp;

// A jmp whose displacement is to be patched.
fn emit_jmp(code: &mut [u64], d: u16, st: St) -> Result<(u16, St), Fault>
    ensures { Steps code.old code.new st result (emit_d jmp_op d) }
{
    emit(code, crate::build::jmp(), d, st)
}

// A branch, whose position is the one jump of the list, if that has room.
fn jump(
    code: &mut [u64],
    jumps: &mut [u64],
    made: Option<Insn>,
    st: St,
) -> Result<(usize, St), Fault>
    ensures { Jumping code.old code.new jumps.new st result (leap_d made (length jumps.old)) }
{
    if jumps.is_empty() {
        return Err(Fault::NoRoom);
    }
    let (_, s) = emit(code, made, 0, st)?;
    jumps[0] = st.count as u64;
    Ok((1, s))
}

// The branch that tests one register. Its displacement is filled in later, when the jump is patched to its target.
fn how_word(how: How, a: u16) -> Option<Insn>
    ensures { result ≡ made_of (how_op how a) }
{
    match how {
        How::Bool(sense) => crate::build::test(sense, a),
        How::Imm(cmp, n) => crate::build::jump_imm(cmp, a, n),
    }
}

// The value is in a register: the branch that tests it.
pub fn jump_one(
    code: &mut [u64],
    jumps: &mut [u64],
    how: How,
    top: u16,
    x: Result<(u16, St), Fault>,
) -> Result<(usize, St), Fault>
    ensures { AfterJumping code.old code.new jumps.new x result (one_to how (length jumps.old) top) }
{
    let (a, s) = x?;
    jump(code, jumps, how_word(how, a), s.free_to(top))
}

// Both values are in registers, the left one in a: the branch that compares them.
pub fn jump_pair(
    code: &mut [u64],
    jumps: &mut [u64],
    cmp: Cmp,
    a: u16,
    top: u16,
    y: Result<(u16, St), Fault>,
) -> Result<(usize, St), Fault>
    ensures { AfterJumping code.old code.new jumps.new y result (pair_to cmp a (length jumps.old) top) }
{
    let (b, s) = y?;
    jump(code, jumps, crate::build::jump(cmp, a, b), s.free_to(top))
}

// Points a jump that was emitted at p at the next word. Displacements count instructions from the one after the jump.
fn patch_jump(code: &mut [u64], p: usize, d: u16, st: St) -> Result<(u16, St), Fault>
    requires { st.count ≤ length code.old }
    ensures { Steps code.old code.new st result (patch_d p d) }
{
    let n = st.count;
    decode::patch::patch(&mut code[..n], p, n as u64)?;
    Ok((d, st))
}

// Points a set of jumps, as a test can produce more than one, at the same word.
fn patch_jumps(code: &mut [u64], jumps: &[u64], d: u16, st: St) -> Result<(u16, St), Fault>
    requires { st.count ≤ length code.old }
    ensures { Steps code.old code.new st result (patches_d jumps.now d) }
{
    let n = st.count;
    decode::patch::patch_jumps(&mut code[..n], jumps, n as u64)?;
    Ok((d, st))
}

// The k jumps from n on, moved to the list's front: the n before them are patched, and their places are used again.
fn slide(jumps: &mut [u64], n: usize, k: usize)
    requires { n + k ≤ length jumps.old }
    ensures { take k jumps.new ≡ take k (drop n jumps.old) }
{
    for j in 0..k {
        jumps[j] = jumps[n + j];
    }
}

// Both sides of And or Or are made, the left one with n jumps. In one sense of the test they go where the right side's go (`out`); in the other they only
// skip the right side, which is what the patch is for; the right side's k jumps are then moved to the list's front.
pub fn join(
    code: &mut [u64],
    jumps: &mut [u64],
    out: bool,
    n: usize,
    y: Result<(usize, St), Fault>,
) -> Result<(usize, St), Fault>
    requires { Joinable code.old jumps.old n y }
    ensures { Joined code.old code.new jumps.old jumps.new out n y result }
{
    let (k, s) = y?;
    if out {
        return Ok((n + k, s));
    }
    let (_, t) = patch_jumps(code, &jumps[..n], 0, s)?;
    slide(jumps, n, k);
    Ok((k, t))
}

// The then side of a ternary is made: a jmp over the else side, and the jumps of the test go to that side.
pub fn turn(code: &mut [u64], jumps: &[u64], d: u16, st: St) -> Result<(u16, St), Fault>
    requires { st.count ≤ length code.old }
    ensures { Steps code.old code.new st result (turn_d jumps.now d) }
{
    let (_, s) = emit_jmp(code, d, st)?;
    patch_jumps(code, jumps, d, s)
}

// The else side is made: the jmp at p, which jumps over it, goes behind it.
pub fn settle(
    code: &mut [u64],
    p: usize,
    d: u16,
    x: Result<(u16, St), Fault>,
) -> Result<(u16, St), Fault>
    requires { Counted code.old x }
    ensures { After code.old code.new x result (λ y. patch_d p d y.1) }
{
    let (_, s) = x?;
    patch_jump(code, p, d, s)
}

// The branch lands on the true case: a load of True into d; the jmp at p, which jumps over it, goes behind it.
fn load_true(code: &mut [u64], jumps: &[u64], p: usize, d: u16, st: St) -> Result<(u16, St), Fault>
    requires { st.count ≤ length code.old }
    ensures { Steps code.old code.new st result (true_d jumps.now p d) }
{
    let (_, s) = patch_jumps(code, jumps, d, st)?;
    let x = emit_load(code, TRUE, d, s);
    settle(code, p, d, x)
}

// A condition as a boolean value, from the jumps of its branch: load False, jmp, load True. The branch it compiles to is what decides the result, so a
// comparison costs no more here than it does as a test.
pub fn gen_bool(code: &mut [u64], jumps: &[u64], d: u16, st: St) -> Result<(u16, St), Fault>
    requires { st.count ≤ length code.old }
    ensures { Steps code.old code.new st result (bool_d jumps.now d) }
{
    let (_, s) = emit_load(code, FALSE, d, st)?;
    let (_, t) = emit_jmp(code, d, s)?;
    load_true(code, jumps, s.count, d, t)
}
