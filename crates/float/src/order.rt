// The order of floats by their patterns, and the comparisons.
ghost use Rattle.std.specs.Prelude.{◌≡◌};
ghost use Rattle.int64.specs.Order.{holds};
ghost use Rattle.float.specs.Bits.{read};
ghost use Rattle.float.specs.Order as F;

use crate::bits::number;
use int64::order::Cmp;

// Every comparison.
pub fn compare(op: Cmp, a: u64, b: u64) -> bool
    ensures { result ≡ holds op (F.order (read a) (read b)) }
{
    let x = number(a);
    let y = number(b);
    match op {
        Cmp::Eq => x == y,
        Cmp::Ne => x != y,
        Cmp::Lt => x < y,
        Cmp::Le => x <= y,
        Cmp::Gt => x > y,
        Cmp::Ge => x >= y,
    }
}
