// Fills in the first and depth of every node: both follow from the kinds, so whoever writes a table need not count.
ghost use Rattle.std.specs.Prelude.{◌≡◌, ◌<◌};
ghost use Rattle.table.specs.Table.{node_count, span_at};
ghost use Rattle.table.specs.Nodes.{Below, Shallow};
ghost use Rattle.table.specs.Complete.{span_first, span_depth, complete_node, complete_of};

use crate::children::{arity_of, children_of};

// The first that the children give; 0 where one is missing.
fn first_of(s: Option<(usize, u64)>) -> u64
    ensures { result ≡ span_first s }
{
    match s {
        None => 0,
        Some((e, _)) => e as u64,
    }
}

// The depth that the children give; 0 where one is missing, and no depth is 0, so that the check refuses such a node.
fn depth_of(s: Option<(usize, u64)>) -> u64
    requires { Shallow s }
    ensures { result ≡ span_depth s }
{
    match s {
        None => 0,
        Some((_, d)) => d + 1,
    }
}

// Node i, whose children stand before it and have their first and depth.
fn complete_node(nodes: &mut [u64], i: usize)
    requires i_bound { i < node_count nodes.old }
    requires below { Below nodes.old i }
    requires shallow { Shallow (span_at nodes.old i) }
    ensures { nodes.new ≡ complete_node nodes.old i }
{
    let s = children_of(nodes, arity_of(crate::kind_at(nodes, i)), i);
    nodes[4 * i + 2] = first_of(s);
    nodes[4 * i + 3] = depth_of(s);
}

// Every node's first and depth, from node 0 upward. All other words stay, also those of an unfinished node at the end.
pub fn complete(nodes: &mut [u64])
    ensures { nodes.new ≡ complete_of nodes.old }
{
    for i in 0..nodes.len() / 4 {
        complete_node(nodes, i);
    }
}
