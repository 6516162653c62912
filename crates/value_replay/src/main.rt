// Replays operators on lent values, and writes what they answer; tools/oracle/README.md has the layout.
#![tactic(auto)]

use faults::Fault;
use std::io;
use std::io::{Read, Write};
use value::Value;

// The operator of a node kind on two values; the second is left alone by Minus and Not.
fn apply(kind: u64, a: Value, b: Value) -> Result<Value, Fault> {
    match kind {
        6 => ops::minus(a),
        7 => ops::not::not(a),
        _ => ops::binary(kind, a, b),
    }
}

// The pair as a value. A kind that no byte holds is none: `byte_of` makes it 255.
fn lent(kind: u64, payload: u64) -> Option<Value> {
    value::from_pair(replay_io::byte_of(kind), payload)
}

fn answer(kind: u64, x: Option<Value>, y: Option<Value>) -> Result<Value, Fault> {
    let a = x.ok_or(Fault::IllFormed)?;
    let b = y.ok_or(Fault::IllFormed)?;
    apply(kind, a, b)
}

fn write_answer<W: Write>(output: &mut W, a: Result<Value, Fault>) -> io::Result<()> {
    match a {
        Ok(v) => {
            replay_io::write_word(output, 0)?;
            replay_io::write_word(output, value::kind_of(v) as u64)?;
            replay_io::write_word(output, value::payload_of(v))
        }
        Err(fault) => {
            replay_io::write_word(output, fault.number() as u64)?;
            replay_io::write_word(output, 0)?;
            replay_io::write_word(output, 0)
        }
    }
}

fn replay<R: Read, W: Write>(input: &mut R, output: &mut W) -> io::Result<()> {
    let kind = replay_io::read_word(input)?;
    let ka = replay_io::read_word(input)?;
    let pa = replay_io::read_word(input)?;
    let kb = replay_io::read_word(input)?;
    let pb = replay_io::read_word(input)?;
    write_answer(output, answer(kind, lent(ka, pa), lent(kb, pb)))
}

fn main(rt: HostRuntime) -> io::Result<()> {
    let mut input = rt.stdin();
    let mut output = rt.stdout();
    let n = replay_io::read_word(&mut input)?;
    for _ in 0..n {
        replay(&mut input, &mut output)?;
    }
    Ok(())
}
