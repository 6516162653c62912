// Why a table is refused: the first node at fault, and what is at fault there. The number is the check's own; this finds the place.
ghost use Rattle.std.specs.Prelude.{◌≤◌, length, IfSome};

use crate::gather::past;
use crate::{Line, Wrong, read};
use text::scan::find;

// What is at fault at a node.
#[derive(Clone, Copy, Debug, PartialEq, Eq)]
pub enum Reason {
    Kind,
    Payload,
    Child,
    // The first and depth that were given.
    Given(u64, u64),
    Deep,
    Register,
    Finite,
}

// What is known of a node: what the completed table has, and the first and depth that its line gave.
#[derive(Clone, Copy, Debug, PartialEq, Eq)]
pub struct Seen {
    pub kind: u64,
    pub payload: u64,
    pub first: u64,
    pub depth: u64,
    pub given: Option<(u64, u64)>,
}

// What stands at a position; 0 past the end.
fn get(a: &[u64], at: usize) -> u64 {
    a.get(at).copied().unwrap_or(0)
}

pub fn look(nodes: &[u64], i: usize, r: Result<Line, Wrong>) -> Seen
    requires { i ≤ 4097 }
{
    Seen {
        kind: get(nodes, 4 * i),
        payload: get(nodes, 4 * i + 1),
        first: get(nodes, 4 * i + 2),
        depth: get(nodes, 4 * i + 3),
        given: match r {
            Ok(Line::Given(_, _, f, d)) => Some((f, d)),
            _ => None,
        },
    }
}

// A kind that is known, and a payload that the kind has. A Float literal is finite.
fn why_kind(k: u64, p: u64) -> Option<Reason> {
    if table::TERNARY < k {
        return Some(Reason::Kind);
    }
    match k {
        table::FLOAT if !float::bits::is_finite(p) => Some(Reason::Finite),
        table::INT..=table::REF => None,
        _ if p != 0 => Some(Reason::Payload),
        _ => None,
    }
}

// The first and depth that were given are those that the children give.
fn why_given(s: Seen) -> Option<Reason> {
    if s.depth == 0 {
        return Some(Reason::Child);
    }
    let (first, depth) = s.given?;
    if first != s.first || depth != s.depth {
        return Some(Reason::Given(first, depth));
    }
    None
}

fn why_limit(s: Seen, base: u64) -> Option<Reason> {
    if faults::MAX_DEPTH < s.depth {
        return Some(Reason::Deep);
    }
    if s.kind == table::REF && base <= s.payload {
        return Some(Reason::Register);
    }
    None
}

// What is at fault at a node of a completed table.
pub fn why(s: Seen, base: u64) -> Option<Reason> {
    why_kind(s.kind, s.payload)
        .or(why_given(s))
        .or(why_limit(s, base))
}

// A node at fault: its number, where its line begins in the text, and the line's number.
#[derive(Clone, Copy, Debug, PartialEq, Eq)]
pub struct Spot {
    pub node: usize,
    pub at: usize,
    pub line: u64,
}

fn is_node(r: Result<Line, Wrong>) -> bool {
    matches!(r, Ok(Line::Node(_, _) | Line::Given(_, _, _, _)))
}

// The number of the next node, after a line. No table that comes here has more than NODES.
fn next_node(n: usize, r: Result<Line, Wrong>) -> usize
    requires { n ≤ 4097 }
    ensures { result ≤ 4097 }
{
    if is_node(r) && n < 4097 {
        return n + 1;
    }
    n
}

fn is_at_fault(nodes: &[u64], n: usize, r: Result<Line, Wrong>, base: u64) -> bool
    requires { n ≤ 4097 }
{
    is_node(r) && why(look(nodes, n, r), base).is_some()
}

// The first node at fault of a completed table. The loop goes by positions, since a position is part of its answer.
pub fn first_at_fault(nodes: &[u64], s: &[u8], line: u64, base: u64) -> Option<Spot>
    ensures node_bound { IfSome result (λ t. t.node ≤ 4097) }
    ensures at_in_bounds { IfSome result (λ t. t.at ≤ length s.now) }
{
    let mut t = Spot {
        node: 0,
        at: 0,
        line,
    };
    while t.at < s.len() {
        let e = find(s, t.at, b'\n');
        let r = read(&s[t.at..e]);
        if is_at_fault(nodes, t.node, r, base) {
            return Some(t);
        }
        t = Spot {
            node: next_node(t.node, r),
            at: past(s, e),
            line: t.line.saturating_add(1),
        };
    }
    None
}
