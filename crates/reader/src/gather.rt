// The lines of an expression, one after the other. Each loop reads all lines again and fills one kind of buffer: nodes, the first and depth that are
// given, or values. A loop that held several buffers would cost far more to prove.
ghost use Rattle.std.specs.Prelude.{◌≡◌, ◌+◌, ◌<◌, ◌≤◌, min, length};

use crate::head::NODES;
use crate::{Line, Wrong, read};
use text::scan::find;

// The position after a line that ends at e.
pub fn past(s: &[u8], e: usize) -> usize
    ensures { result ≡ min (e + 1) (length s.now) }
{
    if e < s.len() {
        return e + 1;
    }
    s.len()
}

// Two words, where they have room.
fn put_two(a: &mut [u64], at: usize, x: u64, y: u64) {
    if at < a.len() {
        a[at] = x;
        if at + 1 < a.len() {
            a[at + 1] = y;
        }
    }
}

// Kind and payload of node n; the number of the next node.
fn put_kind(nodes: &mut [u64], n: usize, kind: u64, payload: u64) -> usize {
    if n < NODES {
        put_two(nodes, 4 * n, kind, payload);
        return n + 1;
    }
    n
}

fn put_node(nodes: &mut [u64], n: usize, r: Result<Line, Wrong>) -> usize {
    match r {
        Ok(Line::Node(k, p) | Line::Given(k, p, _, _)) => put_kind(nodes, n, k, p),
        _ => n,
    }
}

// Kinds and payloads of all nodes.
pub fn put_nodes(s: &[u8], nodes: &mut [u64]) {
    let mut n = 0;
    for l in s.split(|b| *b == b'\n') {
        n = put_node(nodes, n, read(l));
    }
}

// First and depth of node n; the number of the next node.
fn put_span(nodes: &mut [u64], n: usize, first: u64, depth: u64) -> usize {
    if n < NODES {
        put_two(nodes, 4 * n + 2, first, depth);
        return n + 1;
    }
    n
}

// The number of the next node, where a line has one.
fn next_node(n: usize, r: Result<Line, Wrong>) -> usize {
    match r {
        Ok(Line::Node(_, _)) if n < NODES => n + 1,
        _ => n,
    }
}

fn put_given(nodes: &mut [u64], n: usize, r: Result<Line, Wrong>) -> usize {
    match r {
        Ok(Line::Given(_, _, f, d)) => put_span(nodes, n, f, d),
        _ => next_node(n, r),
    }
}

// The first and depth that lines give, in place of those that the children give.
pub fn put_spans(s: &[u8], nodes: &mut [u64]) {
    let mut n = 0;
    for l in s.split(|b| *b == b'\n') {
        n = put_given(nodes, n, read(l));
    }
}

fn put_pair(kinds: &mut [u8], payloads: &mut [u64], n: usize, kind: u8, payload: u64) -> usize {
    if n < kinds.len() {
        if n < payloads.len() {
            kinds[n] = kind;
            payloads[n] = payload;
            return n + 1;
        }
    }
    n
}

fn put_value(kinds: &mut [u8], payloads: &mut [u64], n: usize, r: Result<Line, Wrong>) -> usize {
    match r {
        Ok(Line::Value(k, p)) => put_pair(kinds, payloads, n, k, p),
        _ => n,
    }
}

// The values of the registers.
pub fn put_values(s: &[u8], kinds: &mut [u8], payloads: &mut [u64]) {
    let mut n = 0;
    for l in s.split(|b| *b == b'\n') {
        n = put_value(kinds, payloads, n, read(l));
    }
}

// The position after the expression that begins at `from`. The loop goes by positions, since a position is its answer.
pub fn end_of(s: &[u8], from: usize) -> usize
    requires { from < length s.now }
    ensures lower_bound { from < result }
    ensures upper_bound { result ≤ length s.now }
{
    let mut at = from;
    while at < s.len() {
        let e = find(s, at, b'\n');
        let ended = matches!(read(&s[at..e]), Ok(Line::End));
        at = past(s, e);
        if ended {
            return at;
        }
    }
    at
}
