// The register counter of a frame, a port of the Rust's `Regs`. It is lent, and changed in place.
#![tactic(auto)]

ghost use Rattle.std.specs.Prelude.{◌≡◌, ◌+◌};
ghost use Rattle.regs.specs.Counter.{fresh, end_at, end_fault, allocated, freed, extended, reached, refusal};

use faults::Fault;

// Parameters come first, then locals, then temporaries, which are handed out and given back in stack order.
#[derive(Clone, Copy)]
pub struct Regs {
    // the first register that a temporary can use
    pub temp_base: u16,
    // the next free temporary
    pub next: u16,
    // the highest count reached, which is the frame size
    pub max: u16,
}

// Where a run of n registers from start on ends, if no register past the last one is needed.
fn end_of(start: u16, n: u16) -> Result<u16, Fault>
    ensures { result ≡ end_at (start + n) }
{
    let end = start as u64 + n as u64;
    if faults::MAX_REGISTERS < end {
        return Err(Fault::NoRegister);
    }
    Ok(end as u16)
}

impl Regs {
    // The counter of a function with so many parameters and locals: no temporary is taken, and none is ever register 0.
    pub fn new(vars: u16) -> Regs
        ensures { result ≡ fresh vars }
    {
        let temp_base = vars.max(1);
        Regs {
            temp_base,
            next: temp_base,
            max: temp_base,
        }
    }

    // Takes every register below end.
    fn reach(&mut self, end: u16)
        ensures { self.new ≡ reached self.old end }
    {
        self.next = end;
        self.max = self.max.max(end);
    }

    // Reserves a run of n registers: the first of them, or a refusal, and then the counter is as it was.
    pub fn alloc_n(&mut self, n: u16) -> Result<u16, Fault>
        ensures { (refusal result ≡ end_fault (self.old.next + n))
            × (result ≡ (allocated self.old n).got)
            × (self.new ≡ (allocated self.old n).regs) }
    {
        let first = self.next;
        let end = end_of(first, n)?;
        self.reach(end);
        Ok(first)
    }

    // Gives back every temporary from top on.
    pub fn free_to(&mut self, top: u16)
        ensures { self.new ≡ freed self.old top }
    {
        self.next = top;
    }

    // Reserves the n registers from start on, where start is already handed out; refused, it leaves the counter as it was.
    #[tactic(auto, unfolding(crate::specs::Counter::end_fault, crate::specs::Counter::extended, faults::specs::Faults::fault))]
    pub fn alloc_from(&mut self, start: u16, n: u16) -> Result<(), Fault>
        ensures { (result ≡ end_fault (start + n))
            × (result ≡ (extended self.old start n).got)
            × (self.new ≡ (extended self.old start n).regs) }
    {
        let end = end_of(start, n)?;
        self.reach(self.next.max(end));
        Ok(())
    }
}
