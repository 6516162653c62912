// What compiling answers, and what it leaves in the lent buffers: the words, the constants in their slots, and zeros after them; after a refusal zeros
// alone, so that nothing of a refused expression can be run by mistake.
ghost use Rattle.std.specs.Prelude.{length};
ghost use Rattle.emit.specs.State.{done, fail};
ghost use Rattle.emit.specs.Read.{bufs, st_of, Fit};
ghost use Rattle.compile.specs.Buffers.{Compiles};

use emit::state::St;
use faults::Fault;

// What compiling made: how many words and constants, the register that holds the value, and the frame's size.
#[derive(Clone, Copy)]
pub struct Compiled {
    pub words: usize,
    pub slots: usize,
    pub register: u16,
    pub frame: u16,
}

// All words are made, and the constants stand in their slots: what follows is zeroed.
pub(crate) fn finish(
    code: &mut [u64],
    kinds: &mut [u8],
    payloads: &mut [u64],
    r: u16,
    s: St,
) -> Result<Compiled, Fault>
    requires { Fit (bufs code.old kinds.old payloads.old) s }
    ensures { Compiles result (done (r, st_of (bufs code.old kinds.old payloads.old) s))
        code.new kinds.new payloads.new
        (length code.old) (length kinds.old) (length payloads.old) }
{
    code[s.count..].fill(0);
    kinds[s.slots..].fill(0);
    payloads[s.slots..].fill(0);
    Ok(Compiled {
        words: s.count,
        slots: s.slots,
        register: r,
        frame: s.frame,
    })
}

// A refusal: its fault, and all lent output zero. Public for entries that refuse before they compile.
pub fn refuse(
    f: Fault,
    code: &mut [u64],
    kinds: &mut [u8],
    payloads: &mut [u64],
) -> Result<Compiled, Fault>
    ensures { Compiles result (fail f) code.new kinds.new payloads.new
        (length code.old) (length kinds.old) (length payloads.old) }
{
    code.fill(0);
    kinds.fill(0);
    payloads.fill(0);
    Err(f)
}
