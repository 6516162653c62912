// A float as a decimal, never rounded. Where its digits are too many to be of use it stands as a whole number times a power of two.
ghost use Rattle.std.specs.Prelude.{◌<◌, ◌≤◌};

use crate::{say, say_number, tell_line};
use std::io;

// Twice p, while that is at most 2^60.
fn twice(p: u64) -> u64
    requires p_nonzero { 0 < p }
    requires p_bound { p ≤ 1152921504606846976 }
    ensures result_nonzero { 0 < result }
    ensures upper_bound { result ≤ 1152921504606846976 }
{
    if p <= 576460752303423488 {
        return p * 2;
    }
    p
}

// 2^k, for k up to 60.
fn power(k: u64) -> u64
    ensures result_nonzero { 0 < result }
    ensures upper_bound { result ≤ 1152921504606846976 }
{
    let mut p = 1;
    for _ in 0..k {
        p = twice(p);
    }
    p
}

// m doubled k times, while 64 bits hold it.
fn doubled(m: u64, k: u64) -> u64 {
    let mut n = m;
    for _ in 0..k {
        if n < 9223372036854775808 {
            n *= 2;
        }
    }
    n
}

// The digits of rest / p after the point, at most k of them.
fn say_fraction(rt: &impl Print, rest: u64, p: u64, k: u64) -> io::Result<()>
    requires p_nonzero { 0 < p }
    requires p_bound { p ≤ 1152921504606846976 }
    requires rest_lt_p { rest < p }
{
    let mut r = rest;
    for _ in 0..k {
        if r == 0 {
            return Ok(());
        }
        say_number(rt, r * 10 / p % 10)?;
        r = r * 10 % p;
    }
    Ok(())
}

// m / 2^k, for k up to 60.
fn say_ratio(rt: &impl Print, m: u64, k: u64) -> io::Result<()> {
    let p = power(k);
    say_number(rt, m / p)?;
    let rest = m % p;
    if rest != 0 {
        say(rt, b".")?;
        say_fraction(rt, rest, p, k)?;
    }
    Ok(())
}

// A number times a power of two, whose exponent is below 0 or not.
fn say_product(rt: &impl Print, below: u64, m: u64, k: u64) -> io::Result<()> {
    tell_line(rt, b"% * 2^%\n% * 2^-%", below, &[m, k], 0)
}

// How many factors of two m has.
fn twos(m: u64) -> u64 {
    u64::from(m.trailing_zeros())
}

// m / 2^k, without the factors of two that both have. Past 60 digits after the point a decimal is of no use.
fn say_small(rt: &impl Print, m: u64, k: u64) -> io::Result<()> {
    let t = twos(m).min(k);
    let n = m / power(t);
    if k - t <= 60 {
        return say_ratio(rt, n, k - t);
    }
    say_product(rt, 1, n, k - t)
}

// m * 2^k, for m of 53 binary digits; from 2^64 on as a product.
fn say_large(rt: &impl Print, m: u64, k: u64) -> io::Result<()>
    requires { k ≤ 1024 }
{
    let t = twos(m).min(60);
    if k <= 11 {
        return say_number(rt, doubled(m, k));
    }
    say_product(rt, 0, m / power(t), k + t)
}

// m * 2^(e - 1075), for m of 53 binary digits.
fn say_scaled(rt: &impl Print, m: u64, e: u64) -> io::Result<()>
    requires { e ≤ 2047 }
{
    if e >= 1075 {
        return say_large(rt, m, e - 1075);
    }
    say_small(rt, m, 1075 - e)
}

// An infinity or a NaN, by its fraction.
fn say_special(rt: &impl Print, f: u64) -> io::Result<()> {
    let n = if f == 0 { 0 } else { 1 };
    tell_line(rt, b"infinity\nNaN", n, &[], 0)
}

fn say_magnitude(rt: &impl Print, q: u64) -> io::Result<()> {
    let e = q / 4503599627370496;
    let f = q % 4503599627370496;
    if q == 0 {
        return say_number(rt, 0);
    }
    if e >= 2047 {
        return say_special(rt, f);
    }
    if e == 0 {
        return say_scaled(rt, f, 1);
    }
    say_scaled(rt, f + 4503599627370496, e)
}

// The float of a pattern.
pub fn say_float(rt: &impl Print, p: u64) -> io::Result<()> {
    if p < 9223372036854775808 {
        return say_magnitude(rt, p);
    }
    say(rt, b"-")?;
    say_magnitude(rt, p - 9223372036854775808)
}
