// Replays runs of instruction words on lent registers and slots, and writes what the machine answers; tools/oracle/README.md has the layout.
#![tactic(auto)]

ghost use Rattle.std.specs.Prelude.{◌≤◌, length};

use machine::run::Ran;
use replay_io::within;
use std::io;
use std::io::{Read, Write};

// Room for the largest record.
const WORDS: usize = 256;

const PAIRS: usize = 32;

// The whole from a start, or a part.
fn ran(
    words: &[u64],
    entry: u64,
    end: u64,
    start: u64,
    budget: u64,
    kinds: &mut [u8],
    payloads: &mut [u64],
    slot_kinds: &[u8],
    slot_payloads: &[u64],
) -> Ran {
    if entry == 0 {
        if end == words.len() as u64 {
            return run::run(
                words,
                start as usize,
                kinds,
                payloads,
                slot_kinds,
                slot_payloads,
                budget,
            );
        }
    }
    run::run_part(
        words,
        entry as usize,
        end as usize,
        kinds,
        payloads,
        slot_kinds,
        slot_payloads,
        budget,
    )
}

fn answer<W: Write>(
    output: &mut W,
    words: &[u64],
    entry: u64,
    end: u64,
    start: u64,
    budget: u64,
    kinds: &mut [u8],
    payloads: &mut [u64],
    slot_kinds: &[u8],
    slot_payloads: &[u64],
) -> io::Result<()> {
    let r = ran(
        words,
        entry,
        end,
        start,
        budget,
        kinds,
        payloads,
        slot_kinds,
        slot_payloads,
    );
    replay_io::write_word(output, faults::number_of(r.end) as u64)?;
    replay_io::write_word(output, r.steps)?;
    replay_io::write_word(output, r.position as u64)?;
    replay_io::write_bytes(output, kinds)?;
    replay_io::write_words(output, payloads)
}

// The first k kinds and p payloads are lent.
fn lend<W: Write>(
    output: &mut W,
    words: &[u64],
    entry: u64,
    end: u64,
    start: u64,
    budget: u64,
    kinds: &mut [u8],
    k: usize,
    payloads: &mut [u64],
    p: usize,
    slot_kinds: &[u8],
    slot_payloads: &[u64],
) -> io::Result<()>
    requires k_in_bounds { k ≤ length kinds.old }
    requires p_in_bounds { p ≤ length payloads.old }
{
    answer(
        output,
        words,
        entry,
        end,
        start,
        budget,
        &mut kinds[..k],
        &mut payloads[..p],
        slot_kinds,
        slot_payloads,
    )
}

// What was read is run, as much of each as was announced.
fn serve<W: Write>(
    output: &mut W,
    nw: u64,
    words: &[u64],
    entry: u64,
    end: u64,
    start: u64,
    budget: u64,
    nk: u64,
    kinds: &mut [u8],
    np: u64,
    payloads: &mut [u64],
    nsk: u64,
    slot_kinds: &[u8],
    nsp: u64,
    slot_payloads: &[u64],
) -> io::Result<()> {
    let w = within(nw, words.len());
    let k = within(nk, kinds.len());
    let p = within(np, payloads.len());
    let sk = within(nsk, slot_kinds.len());
    let sp = within(nsp, slot_payloads.len());
    lend(
        output,
        &words[..w],
        entry,
        end,
        start,
        budget,
        kinds,
        k,
        payloads,
        p,
        &slot_kinds[..sk],
        &slot_payloads[..sp],
    )
}

fn replay<R: Read, W: Write>(input: &mut R, output: &mut W) -> io::Result<()> {
    let nw = replay_io::read_word(input)?;
    let entry = replay_io::read_word(input)?;
    let end = replay_io::read_word(input)?;
    let start = replay_io::read_word(input)?;
    let budget = replay_io::read_word(input)?;
    let nk = replay_io::read_word(input)?;
    let np = replay_io::read_word(input)?;
    let nsk = replay_io::read_word(input)?;
    let nsp = replay_io::read_word(input)?;
    let mut words = [0u64; WORDS];
    let mut kinds = [0u8; PAIRS];
    let mut payloads = [0u64; PAIRS];
    let mut slot_kinds = [0u8; PAIRS];
    let mut slot_payloads = [0u64; PAIRS];
    replay_io::read_words(input, &mut words, nw)?;
    replay_io::read_bytes(input, &mut kinds, nk)?;
    replay_io::read_words(input, &mut payloads, np)?;
    replay_io::read_bytes(input, &mut slot_kinds, nsk)?;
    replay_io::read_words(input, &mut slot_payloads, nsp)?;
    serve(
        output,
        nw,
        &words,
        entry,
        end,
        start,
        budget,
        nk,
        &mut kinds,
        np,
        &mut payloads,
        nsk,
        &slot_kinds,
        nsp,
        &slot_payloads,
    )
}

fn main(rt: HostRuntime) -> io::Result<()> {
    let mut input = rt.stdin();
    let mut output = rt.stdout();
    let n = replay_io::read_word(&mut input)?;
    for _ in 0..n {
        replay(&mut input, &mut output)?;
    }
    Ok(())
}
