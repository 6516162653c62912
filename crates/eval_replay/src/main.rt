// Replays node tables with their locals, and writes what the check and the evaluator answer; tools/oracle/README.md has the layout.
#![tactic(auto)]

use faults::Fault;
use replay_io::within;
use std::io;
use std::io::{Read, Write};
use value::Value;

// Room for the largest record.
const TABLE_WORDS: usize = 16388;

const LOCALS: usize = 16;

fn dest_of(d: u64) -> Option<u64> {
    d.checked_sub(1)
}

fn write_answer<W: Write>(output: &mut W, a: Result<Value, Fault>) -> io::Result<()> {
    match a {
        Ok(v) => {
            replay_io::write_word(output, 0)?;
            replay_io::write_word(output, value::kind_of(v) as u64)?;
            replay_io::write_word(output, value::payload_of(v))
        }
        Err(n) => {
            replay_io::write_word(output, n.number() as u64)?;
            replay_io::write_word(output, 0)?;
            replay_io::write_word(output, 0)
        }
    }
}

// What was read, as much of each as was announced.
fn serve<W: Write>(
    output: &mut W,
    n: u64,
    words: &[u64],
    params: u64,
    locals: u64,
    dest: u64,
    nk: u64,
    kinds: &[u8],
    np: u64,
    payloads: &[u64],
) -> io::Result<()> {
    let w = within(n, words.len());
    let k = within(nk, kinds.len());
    let p = within(np, payloads.len());
    replay_io::write_word(
        output,
        faults::number_of(table::check::check(&words[..w], params, locals, dest_of(dest))) as u64,
    )?;
    write_answer(
        output,
        eval::evaluate(&words[..w], params, locals, &kinds[..k], &payloads[..p]),
    )
}

fn replay<R: Read, W: Write>(input: &mut R, output: &mut W) -> io::Result<()> {
    let n = replay_io::read_word(input)?;
    let params = replay_io::read_word(input)?;
    let locals = replay_io::read_word(input)?;
    let dest = replay_io::read_word(input)?;
    let nk = replay_io::read_word(input)?;
    let np = replay_io::read_word(input)?;
    let mut words = [0u64; TABLE_WORDS];
    let mut kinds = [0u8; LOCALS];
    let mut payloads = [0u64; LOCALS];
    replay_io::read_words(input, &mut words, n)?;
    replay_io::read_bytes(input, &mut kinds, nk)?;
    replay_io::read_words(input, &mut payloads, np)?;
    serve(
        output, n, &words, params, locals, dest, nk, &kinds, np, &payloads,
    )
}

fn main(rt: HostRuntime) -> io::Result<()> {
    let mut input = rt.stdin();
    let mut output = rt.stdout();
    let n = replay_io::read_word(&mut input)?;
    for _ in 0..n {
        replay(&mut input, &mut output)?;
    }
    Ok(())
}
