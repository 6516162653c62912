// Which child of a node is evaluated first, and which next: And, Or and Ternary skip what they need not evaluate.
ghost use Rattle.std.specs.Prelude.{◌≡◌};
ghost use Rattle.table.specs.Nodes.{ChildIs};
ghost use Rattle.value.specs.Value as Vs;
ghost use Rattle.value.specs.Answer.{is, result_of};
ghost use Rattle.eval.specs.Next.{Ruled, truth_of, rule_of, first_of, chosen_of, after_of, next_of};

use faults::Fault;
use table::{child_1, child_2, child_3};
use value::Value;

// What is to be done at a node with children.
#[derive(Clone, Copy)]
pub enum Rule {
    Unary,
    Operator,
    And,
    Or,
    Ternary,
}

// A value as a test: only a Bool is one.
fn truth_of(v: Value) -> Result<bool, Fault>
    ensures { result ≡ truth_of (is (Vs.meaning v)) }
{
    match v {
        Value::Bool(t) => Ok(t),
        _ => Err(Fault::WrongKind),
    }
}

// An answer as a test.
pub fn test_of(a: Result<Value, Fault>) -> Result<bool, Fault>
    ensures { result ≡ truth_of (result_of a) }
{
    truth_of(a?)
}

// The rule of a kind from MINUS up.
pub fn rule_of(k: u64) -> Rule
    ensures { result ≡ rule_of k }
{
    if k <= table::NOT {
        return Rule::Unary;
    }
    if k <= table::GE {
        return Rule::Operator;
    }
    if k == table::AND {
        return Rule::And;
    }
    if k == table::OR {
        return Rule::Or;
    }
    Rule::Ternary
}

// The child that is evaluated first.
pub fn first(nodes: &[u64], i: usize, r: Rule) -> usize
    requires { Ruled nodes.now i r }
    ensures { ChildIs nodes.now i (first_of r nodes.now i) result }
{
    match r {
        Rule::Unary => child_1(nodes, i),
        Rule::Operator | Rule::And | Rule::Or => child_2(nodes, i),
        Rule::Ternary => child_3(nodes, i),
    }
}

// What follows on a test: the one or the other, and nothing where it is none.
fn chosen(t: Result<bool, Fault>, yes: Option<usize>, no: Option<usize>) -> Option<usize>
    ensures { result ≡ chosen_of t yes no }
{
    match t {
        Ok(true) => yes,
        Ok(false) => no,
        Err(_) => None,
    }
}

// What follows on an operator's left side: nothing where it has a fault.
fn after(a: Result<Value, Fault>, right: Option<usize>) -> Option<usize>
    ensures { result ≡ after_of (result_of a) right }
{
    match a {
        Ok(_) => right,
        Err(_) => None,
    }
}

// What follows on the first child's answer: And, Or and Ternary skip what they need not evaluate, and a fault ends all.
pub fn next_of(nodes: &[u64], i: usize, r: Rule, a: Result<Value, Fault>) -> Option<usize>
    requires { Ruled nodes.now i r }
    ensures { result ≡ next_of r nodes.now i (result_of a) }
{
    match r {
        Rule::Unary => None,
        Rule::Operator => after(a, Some(child_1(nodes, i))),
        Rule::And => chosen(test_of(a), Some(child_1(nodes, i)), None),
        Rule::Or => chosen(test_of(a), None, Some(child_1(nodes, i))),
        Rule::Ternary => chosen(test_of(a), Some(child_2(nodes, i)), Some(child_1(nodes, i))),
    }
}
