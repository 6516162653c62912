// The constant slots. Equal constants share a slot: a literal takes the first slot that holds its kind and its payload, and a new one only if there is none.
// Only the slots that this compile has taken are looked at; what lies behind them in the lent buffers is never read.
ghost use Rattle.std.specs.Prelude.{◌≡◌};
ghost use Rattle.value.specs.Value.{Datum};
ghost use Rattle.insns.specs.declared.op.Op.{Op};
ghost use Rattle.insns.specs.declared.op.Slot.TheVariants as Slot;
ghost use Rattle.emit.specs.State.{alike, seek, emit_d};
ghost use Rattle.emit.specs.Steps.{const_to};
ghost use Rattle.emit.specs.Read.{bufs, st_of, held_in, const_of, found, Pair, Held, Literal, Fit, Says, Steps};

use crate::state::St;
use crate::word::emit;
use faults::Fault;
use insns::Insn;
use std::marker::Model;

// A literal that goes through a slot, an Int or a Float, as the pair that it is lent as.
#[derive(Drop)]
pub(crate) struct Constant {
    kind: u8,
    payload: u64,
}

impl Model for Constant {
    ghost Value = { Datum };

    ghost view = { λ c. const_of c.kind c.payload };

    ghost invariant = { λ c. Literal c.kind c.payload };
}

impl Constant {
    // The Int of a pattern.
    pub(crate) fn int(payload: u64) -> Constant
        ensures { result ≡ const_of 2 payload }
    {
        Constant {
            kind: value::INT,
            payload,
        }
    }

    // The Float of a pattern.
    pub(crate) fn float(payload: u64) -> Constant
        ensures { result ≡ const_of 3 payload }
    {
        Constant {
            kind: value::FLOAT,
            payload,
        }
    }

    // Whether a slot's pair is this constant. Bits are compared, so 0.0 and -0.0 stay apart, and so do an Int and a Float of one pattern.
    fn is(&self, kind: u8, payload: u64) -> bool
        requires { Pair kind payload }
        ensures { result ≡ alike (const_of kind payload) self.now }
    {
        kind == self.kind && payload == self.payload
    }
}

// The first of the n slots that holds a constant.
fn find_const(kinds: &[u8], payloads: &[u64], n: usize, constant: &Constant) -> Option<usize>
    requires { Held kinds.now payloads.now n }
    ensures { result ≡ found (seek constant.now (held_in kinds.now payloads.now n)) n }
{
    for k in 0..n {
        if constant.is(kinds[k], payloads[k]) {
            return Some(k);
        }
    }
    None
}

// Loads the constant of slot k into the register d, if 32 bits hold k.
fn load_slot(code: &mut [u64], k: usize, d: u16, st: St) -> Result<(u16, St), Fault>
    ensures { Steps code.old code.new st result (emit_d (Op.Slot Slot.LoadConst d k) d) }
{
    let Ok(slot) = u32::try_from(k) else {
        return Err(Fault::NoFit);
    };
    emit(code, Insn::load_const(d, slot), d, st)
}

// A constant's slot and the word that loads it. It is refused only if no slot holds the constant and none is free: of kinds and payloads
// the shorter counts.
pub(crate) fn push_const(
    code: &mut [u64],
    kinds: &mut [u8],
    payloads: &mut [u64],
    constant: Constant,
    d: u16,
    st: St,
) -> Result<(u16, St), Fault>
    requires { Fit (bufs code.old kinds.old payloads.old) st }
    ensures { Says (bufs code.new kinds.new payloads.new) result
        (const_to constant (d, st_of (bufs code.old kinds.old payloads.old) st)) }
{
    let n = st.slots;
    if let Some(k) = find_const(kinds, payloads, n, &constant) {
        return load_slot(code, k, d, st);
    }
    if kinds.len() <= n || payloads.len() <= n {
        return Err(Fault::NoSlot);
    }
    kinds[n] = constant.kind;
    payloads[n] = constant.payload;
    load_slot(code, n, d, St { slots: n + 1, ..st })
}
