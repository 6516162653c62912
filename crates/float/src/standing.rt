// An Int beside a Float, compared as the numbers that they are. Rounding the Int to a Float would be wrong from 2^53 + 1 on, and cutting the Float to
// an Int would lose its fraction and every Float from 2^63 on; so an Int beyond 2^53 is compared with the place that the Float has among such Ints.
ghost use Rattle.std.specs.Prelude.{◌≡◌, ◌<◌, ◌≤◌, ◌^◌, nat_abs};
ghost use Rattle.std.specs.Int.{w64};
ghost use Rattle.std.proofs.Common.{to_z};
ghost use Rattle.int64.specs.Order.{holds};
ghost use Rattle.float.specs.Standing.{standing};
ghost use Rattle.float.specs.Places.{is_far, whole_part, place_of, two52, two63};

use int64::order::Cmp;

// 2^63 in a pattern is the sign, 2^52 the least bit of the exponent.
const SIGN: u64 = 0x8000_0000_0000_0000;

const EXPONENT: u64 = 0x0010_0000_0000_0000;

// The patterns of 2^52, from which on a Float is an integer, and of 2^63, which is past every Int.
const TWO_52: u64 = 0x4330_0000_0000_0000;

const TWO_63: u64 = 0x43e0_0000_0000_0000;

// Whether the Float of sign s whose pattern is r but for the sign is past every Int. -2^63 is the one Int with a size of 2^63.
fn is_far(s: bool, r: u64) -> bool
    ensures { result ≡ is_far s r }
{
    if s {
        return r > TWO_63;
    }
    r >= TWO_63
}

// The integer that a Float from 2^52 up to 2^63 is: its 53 digits, moved up by what its exponent is more than that of 2^52.
fn whole_part(r: u64) -> u64
    requires { (two52 ≤ r) × (r ≤ two63) }
    ensures { result ≡ whole_part r }
{
    (EXPONENT + r % EXPONENT) << (r / EXPONENT - 1075)
}

fn place_of(q: u64) -> Option<u64>
    ensures { result ≡ place_of q }
{
    let s = q >= SIGN;
    let r = q % SIGN;
    if is_far(s, r) {
        return None;
    }
    if r < TWO_52 {
        return Some(0);
    }
    Some(int64::sign::with_sign(s, whole_part(r)))
}

// An Int beyond 2^53 with a Float.
fn wide_stands(op: Cmp, p: u64, q: u64) -> bool
    requires { 2 ^ 53 < nat_abs (to_z w64 p) }
    ensures { result ≡ holds op (standing (to_z w64 p) q) }
{
    let a = place_of(q);
    match a {
        None => crate::order::compare(op, 0, q),
        Some(z) => int64::order::compare(op, p, z),
    }
}

// Every comparison of the Int of pattern p with the Float of pattern q.
pub fn stands(op: Cmp, p: u64, q: u64) -> bool
    ensures { result ≡ holds op (standing (to_z w64 p) q) }
{
    let w = crate::from_int(p);
    match w {
        Some(n) => crate::order::compare(op, n, q),
        None => wide_stands(op, p, q),
    }
}
