// Compiles node tables into lent buffers, and writes what compiling answers and leaves; tools/oracle/README.md has the layout.
#![tactic(auto)]

use compile::buffers::Compiled;
use faults::Fault;
use replay_io::within;
use std::io;
use std::io::{Read, Write};

// Room for the largest record.
const TABLE_WORDS: usize = 16388;

const WORDS: usize = 2054;

const SLOTS: usize = 65;

fn dest_of(d: u64) -> Option<u64> {
    d.checked_sub(1)
}

fn write_answer<W: Write>(output: &mut W, answer: Result<Compiled, Fault>) -> io::Result<()> {
    let words = match answer {
        Ok(c) => [
            0,
            c.words as u64,
            c.slots as u64,
            c.register as u64,
            c.frame as u64,
        ],
        Err(fault) => [fault.number() as u64, 0, 0, 0, 0],
    };
    replay_io::write_words(output, &words)
}

fn answer<W: Write>(
    output: &mut W,
    nodes: &[u64],
    params: u64,
    locals: u64,
    dest: u64,
    code: &mut [u64],
    kinds: &mut [u8],
    payloads: &mut [u64],
) -> io::Result<()> {
    write_answer(
        output,
        compile::compile(nodes, params, locals, dest_of(dest), code, kinds, payloads),
    )?;
    replay_io::write_words(output, code)?;
    replay_io::write_bytes(output, kinds)?;
    replay_io::write_words(output, payloads)
}

// The buffers are new in every record and hold no zero, so that what compiling zeroes shows.
fn serve<W: Write>(
    output: &mut W,
    n: u64,
    nodes: &[u64],
    params: u64,
    locals: u64,
    dest: u64,
    words: u64,
    slots: u64,
) -> io::Result<()> {
    let mut code = [0xa5a5_a5a5_a5a5_a5a5u64; WORDS];
    let mut kinds = [0xa5u8; SLOTS];
    let mut payloads = [0xa5a5_a5a5_a5a5_a5a5u64; SLOTS];
    let t = within(n, nodes.len());
    let w = within(words, WORDS);
    let s = within(slots, SLOTS);
    answer(
        output,
        &nodes[..t],
        params,
        locals,
        dest,
        &mut code[..w],
        &mut kinds[..s],
        &mut payloads[..s],
    )
}

fn replay<R: Read, W: Write>(input: &mut R, output: &mut W) -> io::Result<()> {
    let n = replay_io::read_word(input)?;
    let params = replay_io::read_word(input)?;
    let locals = replay_io::read_word(input)?;
    let dest = replay_io::read_word(input)?;
    let words = replay_io::read_word(input)?;
    let slots = replay_io::read_word(input)?;
    let mut nodes = [0u64; TABLE_WORDS];
    replay_io::read_words(input, &mut nodes, n)?;
    serve(output, n, &nodes, params, locals, dest, words, slots)
}

fn main(rt: HostRuntime) -> io::Result<()> {
    let mut input = rt.stdin();
    let mut output = rt.stdout();
    let n = replay_io::read_word(&mut input)?;
    for _ in 0..n {
        replay(&mut input, &mut output)?;
    }
    Ok(())
}
