// What is written: texts with numbers in them, floats as decimals, values.
#![tactic(auto)]

mod expansion;

pub use crate::expansion::say_float;
use std::io;

// The n-th text of a table whose texts stand apart by one byte, counted from 0; empty where it has fewer.
fn text_at(table: &[u8], by: u8, n: u64) -> &[u8] {
    table
        .split(move |b| *b == by)
        .nth(n as usize)
        .unwrap_or(b"")
}

// Bytes, which need not be text.
pub fn say(rt: &impl Print, words: &[u8]) -> io::Result<()> {
    rt.write_all(words)
}

pub fn say_number(rt: &impl Print, n: u64) -> io::Result<()> {
    print!(rt; "{n}")
}

// 0x and sixteen digits.
fn say_bits(rt: &impl Print, n: u64) -> io::Result<()> {
    print!(rt; "0x{n:016x}")
}

// The two's complement p as a decimal.
fn say_int(rt: &impl Print, p: u64) -> io::Result<()> {
    if p < 1 << 63 {
        return say_number(rt, p);
    }
    say(rt, b"-")?;
    say_number(rt, p.wrapping_neg())
}

// How many digits a number has, less one, but at most three.
fn places(n: u64) -> u64 {
    match n {
        0..=9 => 0,
        10..=99 => 1,
        100..=999 => 2,
        _ => 3,
    }
}

// A number in at least four places.
fn say_place(rt: &impl Print, n: u64) -> io::Result<()> {
    say_word(rt, b"   |  | |", b'|', places(n))?;
    say_number(rt, n)
}

// The quarter of a two's complement, rounded toward minus infinity.
fn quarter(p: u64) -> u64 {
    if p < 9223372036854775808 {
        return p / 4;
    }
    18446744073709551615 - (18446744073709551615 - p) / 4
}

// The value of raw bits: four times an Int, or 1, 5 and 9.
fn say_raw(rt: &impl Print, p: u64) -> io::Result<()> {
    if p % 4 == 1 {
        return say_word(rt, b"nil false true", b' ', p / 4);
    }
    say(rt, b"int ")?;
    say_int(rt, quarter(p))
}

// Where a branch goes: its position, one more, and the displacement, whose two's complement is p.
fn say_target(rt: &impl Print, at: u64, p: u64) -> io::Result<()> {
    if p < 9223372036854775808 {
        if at < 9223372036854775807 {
            return say_number(rt, at + p + 1);
        }
        return Ok(());
    }
    let back = 18446744073709551615 - p;
    if back <= at {
        return say_number(rt, at - back);
    }
    Ok(())
}

// The n-th word of a table of names, which stand apart by one byte.
fn say_word(rt: &impl Print, table: &[u8], by: u8, n: u64) -> io::Result<()> {
    say(rt, text_at(table, by, n))
}

// Whether a byte stands for a number.
fn is_mark(b: u8) -> bool {
    matches!(b, b'%' | b'~' | b'#' | b'&' | b'@' | b'$')
}

// A number by its mark: plain, signed, a pattern, in four places, the target of a branch, or raw bits.
fn say_marked(rt: &impl Print, b: u8, x: u64, at: u64) -> io::Result<()> {
    match b {
        b'%' => say_number(rt, x),
        b'~' => say_int(rt, x),
        b'#' => say_bits(rt, x),
        b'&' => say_place(rt, x),
        b'@' => say_target(rt, at, x),
        _ => say_raw(rt, x),
    }
}

// A text, with the numbers in place of its marks, in order; 0 where they do not suffice. A branch goes from the position `at`.
fn tell_at(rt: &impl Print, t: &[u8], numbers: &[u64], at: u64) -> io::Result<()> {
    let mut left = numbers.iter();
    for part in t.split_inclusive(|b| is_mark(*b)) {
        match part.split_last() {
            Some((b, words)) if is_mark(*b) => {
                say(rt, words)?;
                say_marked(rt, *b, left.next().copied().unwrap_or(0), at)?;
            }
            _ => say(rt, part)?,
        }
    }
    Ok(())
}

// A text that has no branch.
pub fn tell(rt: &impl Print, t: &[u8], numbers: &[u64]) -> io::Result<()> {
    tell_at(rt, t, numbers, 0)
}

// The n-th line of a table of texts. A branch in it goes from the position `at`.
pub fn tell_line(
    rt: &impl Print,
    table: &[u8],
    n: u64,
    numbers: &[u64],
    at: u64,
) -> io::Result<()> {
    tell_at(rt, text_at(table, b'\n', n), numbers, at)
}

// The line of a value's text.
fn value_line(kind: u8, payload: u64) -> u64 {
    match (kind, payload) {
        (0, _) => 0,
        (1, 0) => 1,
        (1, _) => 2,
        (2, _) => 3,
        _ => 4,
    }
}

// A value, as a pair of kind and payload.
pub fn say_value(rt: &impl Print, kind: u8, payload: u64) -> io::Result<()> {
    tell_line(
        rt,
        b"nil\nfalse\ntrue\nint ~\nfloat # (",
        value_line(kind, payload),
        &[payload],
        0,
    )?;
    if 2 < kind {
        say_float(rt, payload)?;
        say(rt, b")")?;
    }
    Ok(())
}
