// Sum, difference and product of two patterns, and whether 64 bits hold them. The test and the pattern are plain numbers: an enum of both would cost more.
ghost use Rattle.std.specs.Prelude.{◌≡◌, ◌*◌};
ghost use Rattle.std.specs.Int.{w64};
ghost use Rattle.std.proofs.Common.{to_z};
ghost use Rattle.int64.specs.Sign.{with_sign};
ghost use Rattle.int64.specs.Exact.{in_range, arith};
ghost use Rattle.int64.specs.Patterns.{fitted};

// The operators whose result may leave 64 bits.
#[derive(Clone, Copy)]
pub enum Overflowing {
    Add,
    Sub,
    Mul,
}

// Whether x * y fits with its sign. Small factors need no division.
pub fn times_fits(neg: bool, x: u64, y: u64) -> bool
    ensures { result ≡ in_range (with_sign neg (x * y)) }
{
    if x < 0x8000_0000 {
        if y < 0x8000_0000 {
            return true;
        }
    }
    if y == 0 {
        return true;
    }
    if neg {
        return x <= 0x8000_0000_0000_0000 / y;
    }
    x <= 0x7fff_ffff_ffff_ffff / y
}

// The pattern of the product with its sign, or 0 where it does not fit: then it is not multiplied at all.
pub fn times(neg: bool, x: u64, y: u64) -> u64
    ensures { result ≡ fitted (with_sign neg (x * y)) }
{
    if times_fits(neg, x, y) {
        crate::sign::with_sign(neg, x * y)
    } else {
        0
    }
}

// Whether 64 bits hold the exact result. Raised patterns stand in the order of their numbers, so a sum or a difference is in range by one unsigned
// comparison, on either side of 2^63.
pub fn fits(op: Overflowing, p: u64, q: u64) -> bool
    ensures { result ≡ in_range (arith op (to_z w64 p) (to_z w64 q)) }
{
    let a = crate::sign::raised(p);
    let b = crate::sign::raised(q);
    match op {
        Overflowing::Add => {
            if a < 0x8000_0000_0000_0000 {
                b >= 0x8000_0000_0000_0000 - a
            } else {
                b <= 0xffff_ffff_ffff_ffff - (a - 0x8000_0000_0000_0000)
            }
        }
        Overflowing::Sub => {
            if a < 0x8000_0000_0000_0000 {
                b <= a + 0x8000_0000_0000_0000
            } else {
                b > a - 0x8000_0000_0000_0000
            }
        }
        Overflowing::Mul => times_fits(
            crate::sign::negative(p) != crate::sign::negative(q),
            crate::sign::size(p),
            crate::sign::size(q),
        ),
    }
}

// The pattern of the exact result, or 0 where it does not fit.
pub fn result(op: Overflowing, p: u64, q: u64) -> u64
    ensures { result ≡ fitted (arith op (to_z w64 p) (to_z w64 q)) }
{
    if fits(op, p, q) {
        match op {
            Overflowing::Add => std::num::wrapping_add_u64(p, q),
            Overflowing::Sub => std::num::wrapping_sub_u64(p, q),
            Overflowing::Mul => times(
                crate::sign::negative(p) != crate::sign::negative(q),
                crate::sign::size(p),
                crate::sign::size(q),
            ),
        }
    } else {
        0
    }
}
