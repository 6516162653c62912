// The evaluator and the machine side by side: a table is evaluated, and words are run on the same registers.
ghost use Rattle.value.specs.Answer.{result_of};
ghost use Rattle.machine.specs.Run.{out};
ghost use Rattle.claim.specs.Entry.{Promised};

use eval::evaluate;
use faults::Fault;
use machine::run::Ran;
use run::run;
use value::Value;

// What a run reports, and what the tree gives.
#[derive(Clone, Copy)]
pub struct Both {
    pub ran: Ran,
    pub tree: Result<Value, Fault>,
}

// Evaluates a table on the registers' values, then runs words with those registers. Where the words are those of the table, the two agree.
pub fn evaluate_and_run(
    nodes: &[u64],
    params: u64,
    locals: u64,
    words: &[u64],
    slot_kinds: &[u8],
    slot_payloads: &[u64],
    kinds: &mut [u8],
    payloads: &mut [u64],
    budget: u64,
) -> Both
    ensures { Promised nodes.now params locals
        words.now slot_kinds.now slot_payloads.now
        kinds.old payloads.old budget
        (result_of result.tree) (out result.ran kinds.new payloads.new) }
{
    let tree = evaluate(nodes, params, locals, kinds, payloads);
    let ran = run(words, 0, kinds, payloads, slot_kinds, slot_payloads, budget);
    Both {
        ran: ran,
        tree: tree,
    }
}
