// A run with a budget, and the run of a part of a store.
#![tactic(auto)]

ghost use Rattle.std.specs.Prelude.{◌≡◌, length, ◌<◌, Err};
ghost use Rattle.value.specs.Refs.{SameSlices};
ghost use Rattle.fast.specs.Plan.{Within};
ghost use Rattle.machine.specs.Step.{after, step_of};
ghost use Rattle.machine.specs.Run.{out, ran, run_from, run_of, run_part_of};

use fast::step::quick_step;
use faults::Fault;
use machine::run::Ran;
use machine::step::step;
use value::pairs::{Pairs, PairsMut};

// A run that stops, with the steps that it took and where.
fn stopped(fault: Fault, steps: u64, position: usize) -> Ran
    ensures { result ≡ ran (Err fault) steps position }
{
    Ran {
        end: Err(fault),
        steps,
        position,
    }
}

// The step at a position: the quick one where it is taken, else the general one.
fn next(
    words: &[u64],
    at: usize,
    room: usize,
    registers: &mut PairsMut<'_>,
    slot_room: usize,
    slots: Pairs<'_>,
) -> Result<usize, Fault>
    requires at_in_bounds { at < length words.now }
    requires within { Within 16 room registers.old.kinds.now registers.old.payloads.now }
    requires within_2 { Within 32 slot_room slots.kinds.now slots.payloads.now }
    ensures value { after result registers.new.kinds.now registers.new.payloads.now
        ≡ step_of words.now slots.entry.kinds.now slots.entry.payloads.now at
        registers.old.kinds.now registers.old.payloads.now }
    ensures same_slices { SameSlices registers.old registers.new }
{
    match quick_step(
        words,
        at,
        room,
        registers.kinds,
        registers.payloads,
        slot_room,
        slots.kinds,
        slots.payloads,
    ) {
        Some(p) => Ok(p),
        None => step(words, at, registers, slots),
    }
}

// The steps one after the other. A stopping step is not counted, and the end comes before the budget.
fn run_from(
    words: &[u64],
    start: usize,
    registers: &mut PairsMut<'_>,
    slots: Pairs<'_>,
    budget: u64,
) -> Ran
    ensures value { out result registers.new.kinds.now registers.new.payloads.now
        ≡ run_from words.now slots.entry.kinds.now slots.entry.payloads.now budget 0 start
        registers.old.kinds.now registers.old.payloads.now }
    ensures same_slices { SameSlices registers.old registers.new }
{
    // The registers and slots that the quick step looks at: any smaller numbers would do, at the cost of speed alone.
    let room = registers.shared().len().min(0x1_0000);
    let slot_room = slots.len().min(0x1_0000_0000);
    let mut at = start;
    let mut steps = 0;
    while at < words.len() {
        if steps == budget {
            return stopped(Fault::BudgetSpent, steps, at);
        }
        match next(words, at, room, registers, slot_room, slots) {
            Ok(p) => at = p,
            Err(fault) => return stopped(fault, steps, at),
        }
        steps += 1;
    }
    Ran {
        end: Ok(()),
        steps,
        position: at,
    }
}

// Runs the words from a start on, with registers and slots lent as pairs and at most `budget` steps. The pairs are looked at once, before
// the first step, so that no step meets an ill-formed one.
#[tactic(auto, unfolding(machine::specs::Run::run_of))]
pub fn run(
    words: &[u64],
    start: usize,
    kinds: &mut [u8],
    payloads: &mut [u64],
    slot_kinds: &[u8],
    slot_payloads: &[u64],
    budget: u64,
) -> Ran
    ensures { out result kinds.new payloads.new
        ≡ run_of words.now slot_kinds.now slot_payloads.now budget start kinds.old payloads.old }
{
    if words.len() < start {
        return stopped(Fault::OutOfRange, 0, start);
    }
    let mut registers = PairsMut { kinds, payloads };
    let slots = Pairs {
        kinds: slot_kinds,
        payloads: slot_payloads,
    };
    if !registers.shared().all_well() || !slots.all_well() {
        return stopped(Fault::IllFormed, 0, 0);
    }
    run_from(words, start, &mut registers, slots, budget)
}

// Runs a part of a store: the runner is lent only the words from its entry to its end, so that no jump leaves the part. Its position
// counts from the entry.
pub fn run_part(
    store: &[u64],
    entry: usize,
    end: usize,
    kinds: &mut [u8],
    payloads: &mut [u64],
    slot_kinds: &[u8],
    slot_payloads: &[u64],
    budget: u64,
) -> Ran
    ensures { out result kinds.new payloads.new
        ≡ run_part_of store.now entry end slot_kinds.now slot_payloads.now budget
        kinds.old payloads.old }
{
    if end < entry || store.len() < end {
        return stopped(Fault::OutOfRange, 0, entry);
    }
    run(
        &store[entry..end],
        0,
        kinds,
        payloads,
        slot_kinds,
        slot_payloads,
        budget,
    )
}
