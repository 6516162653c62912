// The evaluator of a node table: recursion over the table, no deeper than its depth limit. Which child is next (`next`), a node's answer (`apply`).
#![tactic(auto)]

mod apply;
mod next;

ghost use Rattle.std.specs.Prelude.{◌≡◌, length};
ghost use Rattle.table.specs.Nodes.{Node};
ghost use Rattle.table.specs.Tree.{tree};
ghost use Rattle.value.specs.Value.{datums};
ghost use Rattle.value.specs.Answer.{result_of};
ghost use Rattle.eval.specs.Steps.{Lends};
ghost use Rattle.eval.specs.Eval.{eval_of};
ghost use Rattle.eval.specs.Evaluate.{evaluate_of};

use crate::apply::{alone, joined, leaf};
use crate::next::{first, next_of, rule_of};
use faults::Fault;
use table::{kind_at, payload_at};
use value::Value;
use value::pairs::Pairs;

// The answer of the tree at node i on the locals lent. Two calls of itself are all that it has, and its locals are one reference, so that a level takes
// little of the stack.
fn eval_node(nodes: &[u64], locals: &Pairs<'_>, i: usize) -> Result<Value, Fault>
    requires node { Node nodes.now (length locals.now.kinds.now) i }
    requires lends { Lends locals.now.kinds.now locals.now.payloads.now }
    ensures { result_of result ≡ eval_of (datums locals.now.kinds.now locals.now.payloads.now) (tree nodes.now i) }
{
    let k = kind_at(nodes, i);
    if k <= table::REF {
        return leaf(k, payload_at(nodes, i), locals);
    }
    let r = rule_of(k);
    let a = eval_node(nodes, locals, first(nodes, i, r));
    let n = next_of(nodes, i, r, a);
    let Some(j) = n else {
        return alone(r, k, a);
    };
    let b = eval_node(nodes, locals, j);
    joined(r, k, a, b)
}

// The answer of a node table on the values of its parameters and locals, which are lent as pairs: a value, or the first fault.
// It writes nothing.
pub fn evaluate(
    nodes: &[u64],
    params: u64,
    locals: u64,
    kinds: &[u8],
    payloads: &[u64],
) -> Result<Value, Fault>
    ensures { result_of result ≡ evaluate_of nodes.now params locals kinds.now payloads.now }
{
    table::check::check(nodes, params, locals, None)?;
    let base = (params + locals) as usize;
    if (Pairs { kinds, payloads }).len() < base {
        return Err(Fault::OutOfRange);
    }
    let lent = Pairs {
        kinds: &kinds[..base],
        payloads: &payloads[..base],
    };
    if lent.all_well() {
        return eval_node(nodes, &lent, nodes.len() / 4 - 1);
    }
    Err(Fault::IllFormed)
}
