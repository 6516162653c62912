// From a word to its instruction: the form of an opcode (`form`), the fields (`cut`); aiming a branch word at a target (`patch`).
#![tactic(auto)]

mod cut;
pub mod form;
pub mod patch;

ghost use Rattle.std.specs.Prelude.{◌≡◌};
ghost use Rattle.decode.specs.Decode.{decode_of, decoded_number};

use crate::cut::{
    bit_and_mask_of, by_id_of, call_host_of, call_method_host_of, call_of, clos_get_of,
    clos_new_of, clos_set_of, if_raw, if_whole, one_of, rshift_mask_of, shift_of, signed_of,
    slot_of, three_of, two_of, wide_of,
};
use crate::form::form;
use faults::Fault;
use insns::fields::{
    HALF_16, HALF_24, HALF_32, HALF_40, SIZE_16, SIZE_24, SIZE_32, SIZE_40, SIZE_OPCODE,
};
use insns::op::{Disp, Form, Imm16, Imm40, Op};

// The number of an answer: 0 of an instruction.
pub fn number_of(decoded: Option<Op>) -> u8
    ensures { result ≡ decoded_number decoded }
{
    match decoded {
        Some(_) => 0,
        None => Fault::Undecoded.number(),
    }
}

// What the word w is, if it decodes. The forms with a signed operand are cut here, the others in `cut`.
pub fn decode(w: u64) -> Option<Op>
    ensures { result ≡ decode_of w }
{
    let x = w / SIZE_OPCODE;
    let x1 = x / SIZE_16;
    let x2 = x1 / SIZE_16;
    match form((w % SIZE_OPCODE) as u8) {
        Form::Bare(k) => if_whole(x, Op::Bare(k)),
        Form::LoadImm40 => {
            let n = x1 % SIZE_40;
            let imm = Imm40 {
                raw: signed_of(n, HALF_40),
            };
            if_raw(
                n,
                if_whole(x1 / SIZE_40, Op::LoadImm40((x % SIZE_16) as u16, imm)),
            )
        }
        Form::Two(k) => two_of(k, x),
        Form::Slot(k) => slot_of(k, x),
        Form::Three(k) => three_of(k, x),
        Form::Shift(k) => shift_of(k, x),
        Form::BitAndMask => bit_and_mask_of(x),
        Form::RshiftMask => rshift_mask_of(x),
        Form::Arith(k) => {
            let imm = Imm16 {
                n: signed_of(x2 % SIZE_16, HALF_16) as i16,
            };
            if_whole(
                x2 / SIZE_16,
                Op::Arith(k, (x % SIZE_16) as u16, (x1 % SIZE_16) as u16, imm),
            )
        }
        Form::ClosNew => clos_new_of(x),
        Form::ClosSet => clos_set_of(x),
        Form::ClosGet => clos_get_of(x),
        Form::One(k) => one_of(k, x),
        Form::Wide(k) => wide_of(k, x),
        Form::If(k) => {
            let disp = Disp {
                by: signed_of(x1 % SIZE_32, HALF_32) as i32,
            };
            if_whole(x1 / SIZE_32, Op::If(k, (x % SIZE_16) as u16, disp))
        }
        Form::Jump(k) => {
            let disp = Disp {
                by: signed_of(x2 % SIZE_24, HALF_24) as i32,
            };
            if_whole(
                x2 / SIZE_24,
                Op::Jump(k, (x % SIZE_16) as u16, (x1 % SIZE_16) as u16, disp),
            )
        }
        Form::JumpImm(k) => {
            let imm = Imm16 {
                n: signed_of(x1 % SIZE_16, HALF_16) as i16,
            };
            let disp = Disp {
                by: signed_of(x2 % SIZE_24, HALF_24) as i32,
            };
            if_whole(
                x2 / SIZE_24,
                Op::JumpImm(k, (x % SIZE_16) as u16, imm, disp),
            )
        }
        Form::Jmp => {
            let disp = Disp {
                by: signed_of(x % SIZE_32, HALF_32) as i32,
            };
            if_whole(x / SIZE_32, Op::Jmp(disp))
        }
        Form::Call(k) => call_of(k, x),
        Form::CallHost => call_host_of(x),
        Form::ById(k) => by_id_of(k, x),
        Form::CallMethodHost => call_method_host_of(x),
        Form::RetImm40 => {
            let n = x % SIZE_40;
            let imm = Imm40 {
                raw: signed_of(n, HALF_40),
            };
            if_raw(n, if_whole(x / SIZE_40, Op::RetImm40(imm)))
        }
        Form::Unknown => None,
    }
}
