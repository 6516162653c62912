// From an opcode and five operands to a word: the fields of a form, and the bits of an operand in its field. A signed operand is the two's
// complement pattern of 64 bits; an operand that a form lacks has to be 0, so that nothing encodes but what decoding gives.
ghost use Rattle.std.specs.Prelude.{◌≡◌};
ghost use Rattle.operands.specs.Encode.{encode_of};
ghost use Rattle.operands.specs.Shapes.{field_at, shapes_of, Narrow};

use decode::form::form;
use insns::Insn;
use insns::bits::signed_bits;
use insns::fields::{
    HALF_16, HALF_24, HALF_32, SIZE_6, SIZE_8, SIZE_12, SIZE_16, SIZE_24, SIZE_32, SIZE_40, make,
    raw_bits,
};
use insns::op::{Form, Imm40};

// A field: of so many numbers from 0, a signed one by half its size, or the raw bits of a value.
#[derive(Clone, Copy)]
enum Shape {
    Unsigned(u64),
    Signed(u64),
    Raw,
}

// The fields of a form; one that it lacks has a single number, 0.
fn shapes_of(f: Form) -> [Shape; 5]
    ensures { result ≡ shapes_of f }
{
    let none = Shape::Unsigned(1);
    let reg = Shape::Unsigned(SIZE_16);
    let six = Shape::Unsigned(SIZE_6);
    let byte = Shape::Unsigned(SIZE_8);
    let twelve = Shape::Unsigned(SIZE_12);
    let wide = Shape::Unsigned(SIZE_24);
    let lit = Shape::Signed(HALF_16);
    let near = Shape::Signed(HALF_24);
    let far = Shape::Signed(HALF_32);
    match f {
        Form::Bare(_) => [none, none, none, none, none],
        Form::LoadImm40 => [reg, Shape::Raw, none, none, none],
        Form::Two(_) => [reg, reg, none, none, none],
        Form::Slot(_) => [reg, Shape::Unsigned(SIZE_32), none, none, none],
        Form::Three(_) => [reg, reg, reg, none, none],
        Form::Shift(_) => [reg, reg, six, none, none],
        Form::BitAndMask => [reg, reg, six, six, none],
        Form::RshiftMask => [reg, reg, six, six, six],
        Form::Arith(_) => [reg, reg, lit, none, none],
        Form::ClosNew => [reg, wide, twelve, none, none],
        Form::ClosSet => [reg, reg, twelve, none, none],
        Form::ClosGet => [reg, twelve, none, none, none],
        Form::One(_) => [reg, none, none, none, none],
        Form::Wide(_) => [reg, reg, wide, none, none],
        Form::If(_) => [reg, far, none, none, none],
        Form::Jump(_) => [reg, reg, near, none, none],
        Form::JumpImm(_) => [reg, lit, near, none, none],
        Form::Jmp => [far, none, none, none, none],
        Form::Call(_) => [reg, byte, wide, none, none],
        Form::CallHost => [reg, reg, byte, none, none],
        Form::ById(_) => [wide, reg, byte, none, none],
        Form::CallMethodHost => [reg, byte, byte, wide, none],
        Form::RetImm40 => [Shape::Raw, none, none, none, none],
        Form::Unknown => [none, none, none, none, none],
    }
}

// A field and the bits of an operand in it.
fn field(s: Shape, p: u64) -> (u64, u64)
    requires { Narrow s }
    ensures { result ≡ field_at s p }
{
    match s {
        Shape::Unsigned(m) => (m, p),
        Shape::Signed(h) => (2 * h, signed_bits(int64::sign::signed(p), h)),
        Shape::Raw => {
            let imm = Imm40 {
                raw: int64::sign::signed(p),
            };
            (SIZE_40, raw_bits(imm))
        }
    }
}

// The word of an opcode and five operands, if there is one.
pub fn encode(opcode: u64, a: u64, b: u64, c: u64, d: u64, e: u64) -> Option<Insn>
    ensures { result ≡ encode_of opcode a b c d e }
{
    if 76 < opcode {
        return None;
    }
    let n = opcode as u8;
    let [sa, sb, sc, sd, se] = shapes_of(form(n));
    make(
        n,
        &[
            field(sa, a),
            field(sb, b),
            field(sc, c),
            field(sd, d),
            field(se, e),
        ],
    )
}
