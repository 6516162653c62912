// The node table: its kinds, the four words of a node, and a node's children; its check (`check`); filling in first and depth (`complete`).
#![tactic(auto)]

pub mod check;
mod children;
pub mod complete;

ghost use Rattle.std.specs.Prelude.{◌≡◌, ◌<◌};
ghost use Rattle.table.specs.Table.{node_count, kind_at, payload_at, first_at, depth_at, child1, child2, child3};
ghost use Rattle.table.specs.Nodes.{Inner, ChildIs};

// The kinds of a node. Up to REF a node has no child, up to NOT one, up to OR two, and TERNARY has three.
pub const NIL: u64 = 0;

pub const TRUE: u64 = 1;

pub const FALSE: u64 = 2;

pub const INT: u64 = 3;

pub const FLOAT: u64 = 4;

pub const REF: u64 = 5;

pub const MINUS: u64 = 6;

pub const NOT: u64 = 7;

pub const BIT_AND: u64 = 8;

pub const BIT_OR: u64 = 9;

pub const BIT_XOR: u64 = 10;

pub const LSHIFT: u64 = 11;

pub const RSHIFT: u64 = 12;

pub const ADD: u64 = 13;

pub const SUB: u64 = 14;

pub const MUL: u64 = 15;

pub const DIV: u64 = 16;

pub const MOD: u64 = 17;

pub const EQ: u64 = 18;

pub const NE: u64 = 19;

pub const LT: u64 = 20;

pub const LE: u64 = 21;

pub const GT: u64 = 22;

pub const GE: u64 = 23;

pub const AND: u64 = 24;

pub const OR: u64 = 25;

pub const TERNARY: u64 = 26;

// The four words of a node.
pub fn kind_at(nodes: &[u64], i: usize) -> u64
    requires { i < node_count nodes.now }
    ensures { result ≡ kind_at nodes.now i }
{
    nodes[4 * i]
}

pub fn payload_at(nodes: &[u64], i: usize) -> u64
    requires { i < node_count nodes.now }
    ensures { result ≡ payload_at nodes.now i }
{
    nodes[4 * i + 1]
}

fn first_at(nodes: &[u64], i: usize) -> usize
    requires { i < node_count nodes.now }
    ensures { result ≡ first_at nodes.now i }
{
    nodes[4 * i + 2] as usize
}

fn depth_at(nodes: &[u64], i: usize) -> u64
    requires { i < node_count nodes.now }
    ensures { result ≡ depth_at nodes.now i }
{
    nodes[4 * i + 3]
}

// The children of node i, from the last one down: of a node with any, of one with two, and of one with three.
pub fn child_1(nodes: &[u64], i: usize) -> usize
    requires { Inner nodes.now i 6 }
    ensures { ChildIs nodes.now i (child1 nodes.now i) result }
{
    i - 1
}

pub fn child_2(nodes: &[u64], i: usize) -> usize
    requires { Inner nodes.now i 8 }
    ensures { ChildIs nodes.now i (child2 nodes.now i) result }
{
    first_at(nodes, i - 1) - 1
}

pub fn child_3(nodes: &[u64], i: usize) -> usize
    requires { Inner nodes.now i 26 }
    ensures { ChildIs nodes.now i (child3 nodes.now i) result }
{
    first_at(nodes, child_2(nodes, i)) - 1
}
