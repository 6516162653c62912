// The generator's state, and its registers. Variables come first in a frame, temporaries above them. Temporaries are handed out and given back in stack
// order, so a caller notes the top (`next`) before generating subexpressions and frees back to it once it has consumed their results.
ghost use Rattle.std.specs.Prelude.{◌≡◌, List, ℕ};
ghost use Rattle.emit.specs.State.{alloc_d, dest_d};
ghost use Rattle.emit.specs.Read.{freed, Steps};

use faults::Fault;
use std::cmp::max;

// How many words and constants there are, the next free temporary, and the high water mark, which is the frame size that the expression needs (`Regs`).
#[derive(Clone, Copy)]
pub struct St {
    pub count: usize,
    pub slots: usize,
    pub next: u16,
    pub frame: u16,
}

impl St {
    // Gives back every temporary handed out since `top` was taken.
    pub(crate) fn free_to(self, top: u16) -> St
        ensures { result ≡ freed self top }
    {
        St { next: top, ..self }
    }
}

// Reserves one register to hold an intermediate value, unless the frame is too large.
fn alloc(st: St) -> Result<(u16, St), Fault>
    ensures { (c : List ℕ) → Steps c c st result alloc_d }
{
    let d = st.next;
    if faults::MAX_REGISTERS <= d as u64 {
        return Err(Fault::NoRegister);
    }
    let next = d + 1;
    Ok((
        d,
        St {
            next,
            frame: max(st.frame, next),
            ..st
        },
    ))
}

// The register to write into, for what produces a new value (`out!` in the Rust): the one that is asked for, or the first free one.
pub fn dest(dst: Option<u16>, st: St) -> Result<(u16, St), Fault>
    ensures { (c : List ℕ) → Steps c c st result (dest_d dst) }
{
    match dst {
        Some(d) => Ok((d, st)),
        None => alloc(st),
    }
}
