// What the lines of an expression say, but for its nodes and values. Titles and faults of the text are written on the way.
use crate::trouble::say_line;
use reader::gather::past;
use reader::head::{Head, after, fresh};
use reader::read;
use std::io;
use text::scan::find;

// The first line at fault is told, and nothing after it.
fn take_line(rt: &impl Print, name: &[u8], l: &[u8], h: Head) -> io::Result<Head> {
    let r = read(l);
    if h.bad {
        return Ok(after(h, r, false));
    }
    let bad = say_line(rt, name, l, h, r)?;
    Ok(after(h, r, bad))
}

// Every line of an expression whose text begins on a line.
pub fn head_of(rt: &impl Print, name: &[u8], s: &[u8], line: u64) -> io::Result<Head> {
    let mut h = fresh(line);
    let mut at = 0;
    while at < s.len() {
        let e = find(s, at, b'\n');
        h = take_line(rt, name, &s[at..e], h)?;
        at = past(s, e);
    }
    Ok(h)
}
