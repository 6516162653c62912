// The number above the opcode, cut upward into the fields of each form. Nothing may be left above them: unused high bits are 0.
ghost use Rattle.std.specs.Prelude.{◌≡◌, ◌*◌, ◌<◌, ◌≤◌, ◌^◌, Some};
ghost use Rattle.decode.specs.Decode.{signed, whole, if_raw, decode_as};
ghost use Rattle.insns.specs.declared.op.Form.{Form};

use insns::bits::is_raw;
use insns::fields::{SIZE_6, SIZE_8, SIZE_12, SIZE_16, SIZE_24, SIZE_32};
use insns::op::{ById, Call, One, Op, Shift, Slot, Three, Two, Wide};

// The bits n of a field of 2 * half numbers, read as two's complement.
pub fn signed_of(n: u64, half: u64) -> i64
    requires { (half ≤ 2 ^ 40) × (n < 2 * half) }
    ensures { result ≡ signed half n }
{
    if n < half {
        n as i64
    } else {
        !((2 * half - 1 - n) as i64)
    }
}

// i, where nothing is left above its fields.
pub fn if_whole(rest: u64, i: Op) -> Option<Op>
    ensures { result ≡ whole rest (Some i) }
{
    (rest == 0).then_some(i)
}

// d, where n is the raw bits of a value.
pub fn if_raw(n: u64, d: Option<Op>) -> Option<Op>
    ensures { result ≡ if_raw n d }
{
    if is_raw(n) { d } else { None }
}

pub fn two_of(k: Two, x: u64) -> Option<Op>
    ensures { result ≡ decode_as (Form.Two k) x }
{
    let x1 = x / SIZE_16;
    if_whole(
        x1 / SIZE_16,
        Op::Two(k, (x % SIZE_16) as u16, (x1 % SIZE_16) as u16),
    )
}

pub fn slot_of(k: Slot, x: u64) -> Option<Op>
    ensures { result ≡ decode_as (Form.Slot k) x }
{
    let x1 = x / SIZE_16;
    if_whole(
        x1 / SIZE_32,
        Op::Slot(k, (x % SIZE_16) as u16, (x1 % SIZE_32) as u32),
    )
}

pub fn three_of(k: Three, x: u64) -> Option<Op>
    ensures { result ≡ decode_as (Form.Three k) x }
{
    let x1 = x / SIZE_16;
    let x2 = x1 / SIZE_16;
    if_whole(
        x2 / SIZE_16,
        Op::Three(
            k,
            (x % SIZE_16) as u16,
            (x1 % SIZE_16) as u16,
            (x2 % SIZE_16) as u16,
        ),
    )
}

pub fn shift_of(k: Shift, x: u64) -> Option<Op>
    ensures { result ≡ decode_as (Form.Shift k) x }
{
    let x1 = x / SIZE_16;
    let x2 = x1 / SIZE_16;
    if_whole(
        x2 / SIZE_6,
        Op::Shift(
            k,
            (x % SIZE_16) as u16,
            (x1 % SIZE_16) as u16,
            (x2 % SIZE_6) as u8,
        ),
    )
}

pub fn bit_and_mask_of(x: u64) -> Option<Op>
    ensures { result ≡ decode_as Form.BitAndMask x }
{
    let x1 = x / SIZE_16;
    let x2 = x1 / SIZE_16;
    let x3 = x2 / SIZE_6;
    if_whole(
        x3 / SIZE_6,
        Op::BitAndMask(
            (x % SIZE_16) as u16,
            (x1 % SIZE_16) as u16,
            (x2 % SIZE_6) as u8,
            (x3 % SIZE_6) as u8,
        ),
    )
}

pub fn rshift_mask_of(x: u64) -> Option<Op>
    ensures { result ≡ decode_as Form.RshiftMask x }
{
    let x1 = x / SIZE_16;
    let x2 = x1 / SIZE_16;
    let x3 = x2 / SIZE_6;
    let x4 = x3 / SIZE_6;
    if_whole(
        x4 / SIZE_6,
        Op::RshiftMask(
            (x % SIZE_16) as u16,
            (x1 % SIZE_16) as u16,
            (x2 % SIZE_6) as u8,
            (x3 % SIZE_6) as u8,
            (x4 % SIZE_6) as u8,
        ),
    )
}

pub fn clos_new_of(x: u64) -> Option<Op>
    ensures { result ≡ decode_as Form.ClosNew x }
{
    let x1 = x / SIZE_16;
    let x2 = x1 / SIZE_24;
    if_whole(
        x2 / SIZE_12,
        Op::ClosNew(
            (x % SIZE_16) as u16,
            (x1 % SIZE_24) as u32,
            (x2 % SIZE_12) as u16,
        ),
    )
}

pub fn clos_set_of(x: u64) -> Option<Op>
    ensures { result ≡ decode_as Form.ClosSet x }
{
    let x1 = x / SIZE_16;
    let x2 = x1 / SIZE_16;
    if_whole(
        x2 / SIZE_12,
        Op::ClosSet(
            (x % SIZE_16) as u16,
            (x1 % SIZE_16) as u16,
            (x2 % SIZE_12) as u16,
        ),
    )
}

pub fn clos_get_of(x: u64) -> Option<Op>
    ensures { result ≡ decode_as Form.ClosGet x }
{
    let x1 = x / SIZE_16;
    if_whole(
        x1 / SIZE_12,
        Op::ClosGet((x % SIZE_16) as u16, (x1 % SIZE_12) as u16),
    )
}

pub fn one_of(k: One, x: u64) -> Option<Op>
    ensures { result ≡ decode_as (Form.One k) x }
{
    if_whole(x / SIZE_16, Op::One(k, (x % SIZE_16) as u16))
}

pub fn wide_of(k: Wide, x: u64) -> Option<Op>
    ensures { result ≡ decode_as (Form.Wide k) x }
{
    let x1 = x / SIZE_16;
    let x2 = x1 / SIZE_16;
    if_whole(
        x2 / SIZE_24,
        Op::Wide(
            k,
            (x % SIZE_16) as u16,
            (x1 % SIZE_16) as u16,
            (x2 % SIZE_24) as u32,
        ),
    )
}

pub fn call_of(k: Call, x: u64) -> Option<Op>
    ensures { result ≡ decode_as (Form.Call k) x }
{
    let x1 = x / SIZE_16;
    let x2 = x1 / SIZE_8;
    if_whole(
        x2 / SIZE_24,
        Op::Call(
            k,
            (x % SIZE_16) as u16,
            (x1 % SIZE_8) as u8,
            (x2 % SIZE_24) as u32,
        ),
    )
}

pub fn call_host_of(x: u64) -> Option<Op>
    ensures { result ≡ decode_as Form.CallHost x }
{
    let x1 = x / SIZE_16;
    let x2 = x1 / SIZE_16;
    if_whole(
        x2 / SIZE_8,
        Op::CallHost(
            (x % SIZE_16) as u16,
            (x1 % SIZE_16) as u16,
            (x2 % SIZE_8) as u8,
        ),
    )
}

pub fn by_id_of(k: ById, x: u64) -> Option<Op>
    ensures { result ≡ decode_as (Form.ById k) x }
{
    let x1 = x / SIZE_24;
    let x2 = x1 / SIZE_16;
    if_whole(
        x2 / SIZE_8,
        Op::ById(
            k,
            (x % SIZE_24) as u32,
            (x1 % SIZE_16) as u16,
            (x2 % SIZE_8) as u8,
        ),
    )
}

pub fn call_method_host_of(x: u64) -> Option<Op>
    ensures { result ≡ decode_as Form.CallMethodHost x }
{
    let x1 = x / SIZE_16;
    let x2 = x1 / SIZE_8;
    let x3 = x2 / SIZE_8;
    if_whole(
        x3 / SIZE_24,
        Op::CallMethodHost(
            (x % SIZE_16) as u16,
            (x1 % SIZE_8) as u8,
            (x2 % SIZE_8) as u8,
            (x3 % SIZE_24) as u32,
        ),
    )
}
