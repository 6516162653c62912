// Numbers of 64 bits, least byte first, from a reader and to a writer, which are standard input and output in the replay programs that share this.
#![tactic(auto)]

ghost use Rattle.std.specs.Prelude.{◌≡◌, ℕ, ◌<◌, ◌≤◌, min, length, take, slice_index, slice_index_or, set, IfOk, OnOk, IfSome};
ghost use Rattle.std.specs.Int.{to_le_bytes, w64};
ghost use Rattle.std.specs.Io.KnownBytes.{Appends, Consumes, IsAtEnd};
ghost use Rattle.replay_io.specs.Numbers.{number_bytes, nth_number, DropsNumbers, MadeOf};

use std::io;
use std::io::{Read, Write};

// A number as a byte; one that no byte holds is 255.
pub fn byte_of(w: u64) -> u8
    ensures { result ≡ min w 255 }
{
    w.min(255) as u8
}

// How much of a buffer a record uses: n, or all of it where n is more, so that a damaged record cannot reach past its buffer.
pub fn within(n: u64, room: usize) -> usize
    ensures bound { result ≤ room }
    ensures value { result ≡ min n room }
{
    n.min(room as u64) as usize
}

// Fills the bytes from the input, and answers how many of them it gave: fewer only where it ended.
pub fn read_full<R: Read>(input: &mut R, bytes: &mut [u8]) -> io::Result<usize>
    ensures bound { IfOk result (λ n. n ≤ length bytes.new) }
    ensures bytes { IfOk result (λ n. Consumes (R.remaining input.old) (R.remaining input.new) (take n bytes.new)) }
    ensures end { IfOk result (λ n. n < length bytes.new → IsAtEnd (R.remaining input.new)) }
{
    let mut done = 0;
    while done < bytes.len() {
        let n = input.read(&mut bytes[done..])?;
        if n == 0 {
            break;
        }
        done += n;
    }
    Ok(done)
}

// The next number of the input; where the input has ended, its missing bytes are 0.
pub fn read_word<R: Read>(input: &mut R) -> io::Result<u64>
    ensures value { IfOk result (λ w. IfSome (R.remaining input.old) (λ xs. w ≡ nth_number xs 0)) }
    ensures rest { OnOk result (DropsNumbers (R.remaining input.old) (R.remaining input.new) 1) }
{
    let mut b = [0u8; 8];
    let n = read_full(input, &mut b)?;
    b[n..].fill(0);
    Ok(u64::from_le_bytes(b))
}

// Writes a number to the output.
pub fn write_word<W: Write>(output: &mut W, w: u64) -> io::Result<()>
    ensures { OnOk result (Appends (W.contents output.old) (W.contents output.new) (to_le_bytes w64 w)) }
{
    output.write_all(&w.to_le_bytes())
}

// Writes an element to its place; where there is none, it is dropped.
fn keep<T: Copy>(room: &mut [T], at: u64, x: T)
    ensures { room.new ≡ set room.old at x }
{
    if at < room.len() as u64 {
        room[at as usize] = x;
    }
}

// The next n numbers of the input, each as an element of the slice; what has no place there is read and dropped.
fn read_into<R: Read, T: Copy, F: Fn(u64) -> T>(
    input: &mut R,
    room: &mut [T],
    n: u64,
    element: &F,
) -> io::Result<()>
    requires { F.IsAlwaysCallable element.now }
    ensures values { OnOk result (IfSome (R.remaining input.old) (λ xs.
        (i : ℕ) (d : T) → i < n → i < length room.new → MadeOf (F.post element.now) xs i (slice_index_or room.new i d))) }
    ensures kept { (i : ℕ) (d : T) → n ≤ i → slice_index_or room.new i d ≡ slice_index_or room.old i d }
    ensures rest { OnOk result (DropsNumbers (R.remaining input.old) (R.remaining input.new) n) }
{
    for i in 0..n {
        let w = read_word(input)?;
        keep(room, i, element(w));
    }
    Ok(())
}

// The next n numbers of the input into the start of `words`; what has no place there is read and dropped.
pub fn read_words<R: Read>(input: &mut R, words: &mut [u64], n: u64) -> io::Result<()>
    ensures values { OnOk result (IfSome (R.remaining input.old) (λ xs.
        (i : ℕ) → i < n → i < length words.new → slice_index words.new i ≡ nth_number xs i)) }
    ensures kept { (i : ℕ) → n ≤ i → slice_index words.new i ≡ slice_index words.old i }
    ensures rest { OnOk result (DropsNumbers (R.remaining input.old) (R.remaining input.new) n) }
{
    read_into(input, words, n, &|w| w)
}

// The same for bytes, each of which stands in a number of its own.
pub fn read_bytes<R: Read>(input: &mut R, bytes: &mut [u8], n: u64) -> io::Result<()>
    ensures values { OnOk result (IfSome (R.remaining input.old) (λ xs.
        (i : ℕ) → i < n → i < length bytes.new → slice_index bytes.new i ≡ min (nth_number xs i) 255)) }
    ensures kept { (i : ℕ) → n ≤ i → slice_index bytes.new i ≡ slice_index bytes.old i }
    ensures rest { OnOk result (DropsNumbers (R.remaining input.old) (R.remaining input.new) n) }
{
    read_into(input, bytes, n, &|w| byte_of(w))
}

// Writes each number of `words`.
pub fn write_words<W: Write>(output: &mut W, words: &[u64]) -> io::Result<()>
    ensures { OnOk result (Appends (W.contents output.old) (W.contents output.new) (number_bytes words.now)) }
{
    for w in words {
        write_word(output, *w)?;
    }
    Ok(())
}

// Writes each byte as a number. One function over both element types is no plainer: its contract would have to name the list of numbers by a relation.
pub fn write_bytes<W: Write>(output: &mut W, bytes: &[u8]) -> io::Result<()>
    ensures { OnOk result (Appends (W.contents output.old) (W.contents output.new) (number_bytes bytes.now)) }
{
    for b in bytes {
        write_word(output, u64::from(*b))?;
    }
    Ok(())
}
