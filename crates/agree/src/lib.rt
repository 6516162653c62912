// The machine and the evaluator side by side: a table is compiled and evaluated, and its words are run (`side_by_side`).
#![tactic(auto)]

pub mod side_by_side;

ghost use Rattle.std.specs.Prelude.{length};
ghost use Rattle.value.specs.Answer.{result_of};
ghost use Rattle.machine.specs.Run.{out};
ghost use Rattle.claim.specs.Claim.{Wide};
ghost use Rattle.claim.specs.Entry.{Whole};

use crate::side_by_side::evaluate_and_run;
use compile::buffers::Compiled;
use compile::compile;
use eval::evaluate;
use faults::Fault;
use machine::run::Ran;
use value::Value;

// What compiling answers, what the tree gives, and what a run of the words reports: of a refused table its fault, and no step.
#[derive(Clone, Copy)]
pub struct Tried {
    pub compiled: Result<Compiled, Fault>,
    pub tree: Result<Value, Fault>,
    pub ran: Ran,
}

// Every word of a slice is below 2^64: its type says so, and here it is said as the claim needs it. Nothing is computed.
fn are_wide(xs: &[u64])
    ensures { Wide xs.now }
{}

// Compiles a table into lent buffers, evaluates it on the registers' values, and runs its words with those registers and the slots that compiling left.
pub fn compile_evaluate_and_run(
    nodes: &[u64],
    params: u64,
    locals: u64,
    dest: Option<u64>,
    code: &mut [u64],
    slot_kinds: &mut [u8],
    slot_payloads: &mut [u64],
    kinds: &mut [u8],
    payloads: &mut [u64],
    budget: u64,
) -> Tried
    ensures { Whole nodes.now params locals dest
        (length code.old) (length slot_kinds.old) (length slot_payloads.old)
        kinds.old payloads.old budget
        result.compiled code.new slot_kinds.new slot_payloads.new
        (result_of result.tree) (out result.ran kinds.new payloads.new) }
{
    are_wide(nodes);
    are_wide(payloads);
    let compiled = compile(nodes, params, locals, dest, code, slot_kinds, slot_payloads);
    match compiled {
        Ok(made) => {
            let both = evaluate_and_run(
                nodes,
                params,
                locals,
                &code[..made.words],
                slot_kinds,
                slot_payloads,
                kinds,
                payloads,
                budget,
            );
            Tried {
                compiled: compiled,
                tree: both.tree,
                ran: both.ran,
            }
        }
        Err(f) => {
            let tree = evaluate(nodes, params, locals, kinds, payloads);
            let ran = Ran {
                end: Err(f),
                steps: 0,
                position: 0,
            };
            Tried {
                compiled: compiled,
                tree: tree,
                ran: ran,
            }
        }
    }
}
