// Where in the text the fault lies that the check of a table found, and what is wrong there.
ghost use Rattle.std.specs.Prelude.{◌≤◌, length};

use crate::trouble::say_at;
use print::{say, tell};
use reader::head::{Head, base_of};
use reader::read;
use reader::why::{Reason, Seen, Spot, first_at_fault, look, why};
use std::io;
use text::scan::find;

fn say_seen(rt: &impl Print, s: Seen, base: u64) -> io::Result<()> {
    match why(s, base) {
        None => say(rt, b"nothing is at fault there")?,
        Some(Reason::Kind) => tell(rt, b"no kind has the number %", &[s.kind])?,
        Some(Reason::Payload) => tell(
            rt,
            b"a node of kind % has no payload, but here it is %",
            &[s.kind, s.payload],
        )?,
        Some(Reason::Child) => say(rt, b"a child is missing: too few nodes stand before it")?,
        Some(Reason::Given(first, depth)) => tell(
            rt,
            b"first % and depth % are given, but should be % and %",
            &[first, depth, s.first, s.depth],
        )?,
        Some(Reason::Deep) => tell(rt, b"its depth is %", &[s.depth])?,
        Some(Reason::Register) => tell(
            rt,
            b"register % is not below the base, %",
            &[s.payload, base],
        )?,
        Some(Reason::Finite) => say(rt, b"a Float that is not finite")?,
    }
    say(rt, b"\n")
}

// What is at fault at a node.
fn say_spot(
    rt: &impl Print,
    name: &[u8],
    nodes: &[u64],
    s: &[u8],
    t: Spot,
    base: u64,
) -> io::Result<()>
    requires node_bound { t.node ≤ 4097 }
    requires at_in_bounds { t.at ≤ length s.now }
{
    let from = t.at;
    let e = find(s, from, b'\n');
    say_at(rt, name, t.line)?;
    tell(rt, b"node %: ", &[t.node as u64])?;
    say_seen(rt, look(nodes, t.node, read(&s[from..e])), base)
}

// Where the fault is that the check found, as the refusal's second line.
pub fn say_where(
    rt: &impl Print,
    name: &[u8],
    nodes: &[u64],
    s: &[u8],
    line: u64,
    h: Head,
) -> io::Result<()> {
    let base = base_of(h);
    say(rt, b"  ")?;
    if let Some(dest) = h.dest
        && base <= dest.number
    {
        say_at(rt, name, dest.line)?;
        return tell(
            rt,
            b"destination r% is not below the base, %\n",
            &[dest.number, base],
        );
    }
    if let Some(t) = first_at_fault(nodes, s, line, base) {
        return say_spot(rt, name, nodes, s, t, base);
    }
    say_at(rt, name, h.node_line)?;
    tell(
        rt,
        b"the last node does not take in all nodes before it\n",
        &[],
    )
}
