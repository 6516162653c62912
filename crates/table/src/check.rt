// The check of a node table: one pass, from node 0 upward, in which a node is compared with its children alone.
ghost use Rattle.std.specs.Prelude.{◌≡◌, ◌≤◌, ◌<◌, cond};
ghost use Rattle.faults.specs.Faults.{fault, ◌or_else◌};
ghost use Rattle.table.specs.Table.{node_count, kind_at, kind_fault, limit_fault, span_fault, node_fault, nodes_fault};
ghost use Rattle.table.specs.Table.{shape_fault, layout_fault, dest_fault, last_fault, check_of};
ghost use Rattle.table.specs.Nodes.{Below, Right, PayloadRight, Over, Passed};

use crate::children::{arity_of, children_of};
use faults::Fault;

// The kind is known, the payload is 0 but for kinds 3 to 5, and a Float literal is finite: no editor writes another, so that one is damage.
fn kind_fault(k: u64, p: u64) -> Result<(), Fault>
    ensures { result ≡ kind_fault k p }
{
    if crate::TERNARY < k {
        return Err(Fault::BadNode);
    }
    if (p != 0) & !((crate::INT <= k) & (k <= crate::REF)) {
        return Err(Fault::BadNode);
    }
    if (k == crate::FLOAT) & !float::bits::is_finite(p) {
        return Err(Fault::BadNode);
    }
    Ok(())
}

// First and depth are what the children give. Everything above relies on them: the children's places on first, the end of every recursion on depth.
fn span_fault(s: Option<(usize, u64)>, f: usize, d: u64) -> Result<(), Fault>
    ensures { result ≡ span_fault s f d }
{
    let Some((e, g)) = s else {
        return Err(Fault::BadNode);
    };
    if f != e {
        return Err(Fault::BadNode);
    }
    if d == 0 {
        return Err(Fault::BadNode);
    }
    if d - 1 != g {
        return Err(Fault::BadNode);
    }
    Ok(())
}

// The depth is within its limit, and a register below the base.
fn limit_fault(k: u64, p: u64, depth: u64, base: u64) -> Result<(), Fault>
    ensures { result ≡ limit_fault k p depth base }
{
    if faults::MAX_DEPTH < depth {
        return Err(Fault::TooDeep);
    }
    if (k == crate::REF) & (base <= p) {
        return Err(Fault::NotLocal);
    }
    Ok(())
}

// The fault of node i, whose predecessors have none, by all the rules in their order.
fn full_fault(nodes: &[u64], base: u64, i: usize) -> Result<(), Fault>
    requires i_bound { i < node_count nodes.now }
    requires below { Below nodes.now i }
    ensures { result ≡ node_fault nodes.now base i }
{
    let k = crate::kind_at(nodes, i);
    let p = crate::payload_at(nodes, i);
    let d = crate::depth_at(nodes, i);
    kind_fault(k, p)?;
    span_fault(
        children_of(nodes, arity_of(k), i),
        crate::first_at(nodes, i),
        d,
    )?;
    limit_fault(k, p, d, base)
}

// A choice of two values that are both at hand: no jump depends on it.
fn pick<T: Copy>(t: bool, a: T, b: T) -> T
    ensures { result ≡ cond t a b }
{
    if t { a } else { b }
}

// Whether a leaf's payload is one that its kind may have. One comparison for all six kinds, so that no jump depends on the kind: a Ref's payload is held
// to the base; of any other what counts has to be 0, and that is nothing of an Int's, and of a Float's whether it is finite.
fn payload_right(k: u64, p: u64, base: u64) -> bool
    requires { k ≤ 5 }
    ensures { PayloadRight k p base result }
{
    let float = pick(float::bits::is_finite(p), 0, 1);
    let seen = pick(k == crate::FLOAT, float, pick(k == crate::INT, 0, p));
    seen < pick(k == crate::REF, base, 1)
}

// Whether the leaf i is right: it is its own subtree.
fn leaf_right(nodes: &[u64], base: u64, i: usize, k: u64) -> bool
    requires i_bound { i < node_count nodes.now }
    requires k_value { k ≡ kind_at nodes.now i }
    requires k_bound { k ≤ 5 }
    ensures { Right nodes.now base i result }
{
    let f = crate::first_at(nodes, i);
    if f != i {
        return false;
    }
    if crate::depth_at(nodes, i) != 1 {
        return false;
    }
    payload_right(k, crate::payload_at(nodes, i), base)
}

// Whether node i is right, whose children have all been looked at but the first: that one ends just before e, and the deepest of the others has depth g.
fn over_right(nodes: &[u64], base: u64, i: usize, e: usize, g: u64) -> bool
    requires { Over nodes.now base i e g }
    ensures { Right nodes.now base i result }
{
    if e == 0 {
        return false;
    }
    if crate::first_at(nodes, i) != crate::first_at(nodes, e - 1) {
        return false;
    }
    let d = crate::depth_at(nodes, i);
    if d != g.max(crate::depth_at(nodes, e - 1)) + 1 {
        return false;
    }
    if faults::MAX_DEPTH < d {
        return false;
    }
    crate::payload_at(nodes, i) == 0
}

// Whether the Ternary i is right: the child before the last is looked at here, and the first one is left.
fn three_right(nodes: &[u64], base: u64, i: usize, e: usize, g: u64) -> bool
    requires passed { Passed nodes.now base i e g }
    requires i_value { kind_at nodes.now i ≡ 26 }
    ensures { Right nodes.now base i result }
{
    if e == 0 {
        return false;
    }
    let f = crate::first_at(nodes, e - 1);
    over_right(nodes, base, i, f, g.max(crate::depth_at(nodes, e - 1)))
}

// Whether node i is right: few tests, by the number of its children. Node i - 1, its last child if it has any, has the first e and the depth g. Minus and
// Not have no other child, so that their first child is their last one; a choice of its end, and no jump, tells them from the operators with two.
fn node_right(nodes: &[u64], base: u64, i: usize, e: usize, g: u64) -> bool
    requires { Passed nodes.now base i e g }
    ensures { Right nodes.now base i result }
{
    let k = crate::kind_at(nodes, i);
    if k <= crate::REF {
        return leaf_right(nodes, base, i, k);
    }
    if k <= crate::OR {
        return over_right(nodes, base, i, pick(k <= crate::NOT, i, e), g);
    }
    if k != crate::TERNARY {
        return false;
    }
    three_right(nodes, base, i, e, g)
}

// The fault of node i. Few tests show that a node is right; one that is not gets its fault from all the rules, and ends the check.
fn node_fault(nodes: &[u64], base: u64, i: usize, e: usize, g: u64) -> Result<(), Fault>
    requires { Passed nodes.now base i e g }
    ensures { result ≡ node_fault nodes.now base i }
{
    if node_right(nodes, base, i, e, g) {
        return Ok(());
    }
    full_fault(nodes, base, i)
}

// The first fault of the nodes, from 0 upward. A node's first and depth are kept for the next one, which may be its parent.
fn nodes_fault(nodes: &[u64], base: u64) -> Result<(), Fault>
    ensures { result ≡ nodes_fault nodes.now base (node_count nodes.now) }
{
    let mut e = 0;
    let mut g = 0;
    for i in 0..nodes.len() / 4 {
        node_fault(nodes, base, i, e, g)?;
        e = crate::first_at(nodes, i);
        g = crate::depth_at(nodes, i);
    }
    Ok(())
}

// Some node, whole nodes only, and no more than the limit.
fn shape_fault(nodes: &[u64]) -> Result<(), Fault>
    ensures { result ≡ shape_fault nodes.now }
{
    let n = nodes.len();
    if n == 0 {
        return Err(Fault::BadShape);
    }
    if n % 4 != 0 {
        return Err(Fault::BadShape);
    }
    if faults::MAX_NODES < n / 4 {
        return Err(Fault::BadShape);
    }
    Ok(())
}

// Tested by a difference: the sum of two counts that a caller gives might not fit 64 bits.
fn layout_fault(params: u64, locals: u64) -> Result<(), Fault>
    ensures { result ≡ layout_fault params locals }
{
    if faults::MAX_REGISTERS < params {
        return Err(Fault::NoRegister);
    }
    if faults::MAX_REGISTERS - params < locals {
        return Err(Fault::NoRegister);
    }
    Ok(())
}

// A destination is a local: a register from the base up may be in use for a temporary.
fn dest_fault(dest: Option<u64>, base: u64) -> Result<(), Fault>
    ensures { result ≡ dest_fault dest base }
{
    match dest {
        Some(r) if base <= r => Err(Fault::NotLocal),
        _ => Ok(()),
    }
}

// The last node is the root. Its subtree takes in every node, so that none is left that no one evaluates.
fn last_fault(nodes: &[u64]) -> Result<(), Fault>
    requires { 0 < node_count nodes.now }
    ensures { result ≡ last_fault nodes.now }
{
    if crate::first_at(nodes, nodes.len() / 4 - 1) != 0 {
        return Err(Fault::BadNode);
    }
    Ok(())
}

// Whether a table with its layout and its destination is accepted, or its first fault.
pub fn check(nodes: &[u64], params: u64, locals: u64, dest: Option<u64>) -> Result<(), Fault>
    ensures { result ≡ check_of nodes.now params locals dest }
{
    shape_fault(nodes)?;
    layout_fault(params, locals)?;
    let base = params + locals;
    dest_fault(dest, base)?;
    nodes_fault(nodes, base)?;
    last_fault(nodes)
}
