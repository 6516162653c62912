// One step: the word at a position is decoded, and its effect carried out.
ghost use Rattle.std.specs.Prelude.{◌≡◌, ◌<◌, length};
ghost use Rattle.value.specs.Answer.{result_of};
ghost use Rattle.value.specs.Refs.{SameSlices};
ghost use Rattle.effect.specs.Effect.{size, held};
ghost use Rattle.effect.specs.Forms.{asked};
ghost use Rattle.machine.specs.Step as St;
ghost use Rattle.machine.specs.Step.{after, lent};
ghost use Rattle.machine.specs.Parts.{told_of};

use decode::decode;
use effect::{Effect, effect_of};
use faults::Fault;
use insns::bits::magnitude;
use insns::op::Disp;
use value::pairs::{Pairs, PairsMut};
use value::{Value, kind_of, payload_of};

// A taken branch. `magnitude` of a negative z is -z - 1, so that its target at + 1 + z is at - m, and no sum here can wrap.
fn land(len: usize, at: usize, z: Disp) -> Result<usize, Fault>
    requires { at < len }
    ensures { result ≡ told_of (St.land_of len at z.by) }
{
    let n = z.by as i64;
    let m = magnitude(n) as usize;
    if n < 0 {
        return at.checked_sub(m).ok_or(Fault::OutOfRange);
    }
    if m <= len - (at + 1) {
        return Ok(at + 1 + m);
    }
    Err(Fault::OutOfRange)
}

// A branch by an answer: a fault, and 20 for what is no Bool, come before 26 for the target, which only a taken branch has.
fn branch(len: usize, at: usize, z: Disp, a: Result<Value, Fault>) -> Result<usize, Fault>
    requires { at < len }
    ensures { result ≡ told_of (St.branch_of len at z.by (result_of a)) }
{
    let Value::Bool(taken) = a? else {
        return Err(Fault::WrongKind);
    };
    if taken {
        return land(len, at, z);
    }
    Ok(at + 1)
}

// An answer goes into a register. 26 for the register comes before the operation's fault, and a fault writes nothing.
fn put(
    len: usize,
    at: usize,
    d: usize,
    a: Result<Value, Fault>,
    registers: &mut PairsMut<'_>,
) -> Result<usize, Fault>
    requires { at < len }
    ensures value { after result registers.new.kinds.now registers.new.payloads.now
        ≡ lent registers.old.kinds.now registers.old.payloads.now
        (St.write_of (size registers.old.kinds.now registers.old.payloads.now) at d (result_of a)) }
    ensures same_slices { SameSlices registers.old registers.new }
{
    if registers.shared().len() <= d {
        return Err(Fault::OutOfRange);
    }
    let v = a?;
    registers.kinds[d] = kind_of(v);
    registers.payloads[d] = payload_of(v);
    Ok(at + 1)
}

// An effect carried out.
fn settle(len: usize, at: usize, e: Effect, registers: &mut PairsMut<'_>) -> Result<usize, Fault>
    requires { at < len }
    ensures value { after result registers.new.kinds.now registers.new.payloads.now
        ≡ lent registers.old.kinds.now registers.old.payloads.now
        (St.settle_of len (size registers.old.kinds.now registers.old.payloads.now) at (asked e)) }
    ensures same_slices { SameSlices registers.old registers.new }
{
    match e {
        Effect::Write(d, a) => put(len, at, d as usize, a, registers),
        Effect::Branch(z, a) => branch(len, at, z, a),
        Effect::Next => Ok(at + 1),
        Effect::Halt(n) => Err(n),
    }
}

// What the word asks for: 10 if it does not decode.
#[tactic(auto, unfolding(crate::specs::Step::word_effect))]
fn word_effect(w: u64, registers: Pairs<'_>, slots: Pairs<'_>) -> Effect
    ensures { asked result
        ≡ St.word_effect (held registers.entry.kinds.now registers.entry.payloads.now)
        (held slots.entry.kinds.now slots.entry.payloads.now) w }
{
    let Some(i) = decode(w) else {
        return Effect::Halt(Fault::Undecoded);
    };
    effect_of(i, registers, slots)
}

// The step at a position of the code. Nothing is written before the word is decoded, its operands read and its faults known.
#[tactic(auto, unfolding(crate::specs::Step::step_of))]
pub fn step(
    words: &[u64],
    at: usize,
    registers: &mut PairsMut<'_>,
    slots: Pairs<'_>,
) -> Result<usize, Fault>
    requires { at < length words.now }
    ensures value { after result registers.new.kinds.now registers.new.payloads.now
        ≡ St.step_of words.now slots.entry.kinds.now slots.entry.payloads.now at
        registers.old.kinds.now registers.old.payloads.now }
    ensures same_slices { SameSlices registers.old registers.new }
{
    let e = word_effect(words[at], registers.shared(), slots);
    settle(words.len(), at, e, registers)
}
