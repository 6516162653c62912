// The order of signed 64-bit integers, each by its two's complement pattern, and the comparisons.
ghost use Rattle.std.specs.Prelude.{◌≡◌};
ghost use Rattle.std.specs.Int.{w64};
ghost use Rattle.std.proofs.Common.{to_z};
ghost use Rattle.int64.specs.Order.{holds, order_z};

// What a comparison asks.
#[derive(Clone, Copy)]
pub enum Cmp {
    Eq,
    Ne,
    Lt,
    Le,
    Gt,
    Ge,
}

// Every comparison of two integers.
pub fn compare(op: Cmp, p: u64, q: u64) -> bool
    ensures { result ≡ holds op (order_z (to_z w64 p) (to_z w64 q)) }
{
    let a = crate::sign::raised(p);
    let b = crate::sign::raised(q);
    match op {
        Cmp::Eq => a == b,
        Cmp::Ne => a != b,
        Cmp::Lt => a < b,
        Cmp::Le => a <= b,
        Cmp::Gt => a > b,
        Cmp::Ge => a >= b,
    }
}
