// The listing: each word with its position, its name and its operands; a jump with the position that it goes to.
use insns::op::Op;
use operands::of_op::{PlainOp, plain_op};
use print::{say, tell, tell_line};
use std::io;

// The 77 opcodes by their numbers: a name and its operands. A literal has `~`, a target `@`, the raw bits of a value `$`.
fn say_parts(rt: &impl Print, p: PlainOp, at: u64) -> io::Result<()> {
    tell_line(
        rt,
        b"panic\n\
          breakpoint\n\
          nop\n\
          load_imm40 r% $\n\
          mov r% r%\n\
          load_const r% %\n\
          get_global r% %\n\
          set_global r% %\n\
          lshift r% r% r%\n\
          rshift r% r% r%\n\
          bit_and r% r% r%\n\
          bit_or r% r% r%\n\
          bit_xor r% r% r%\n\
          bit_not r% r%\n\
          lshift_imm r% r% %\n\
          rshift_imm r% r% %\n\
          bit_and_mask r% r% lo % len %\n\
          rshift_mask r% r% % lo % len %\n\
          add r% r% r%\n\
          sub r% r% r%\n\
          mul r% r% r%\n\
          div r% r% r%\n\
          modulo r% r% r%\n\
          add_imm16 r% r% ~\n\
          sub_imm16 r% r% ~\n\
          mul_imm16 r% r% ~\n\
          not r% r%\n\
          clos_new r% % %\n\
          clos_set r% r% %\n\
          clos_get r% %\n\
          cell_new r%\n\
          cell_set r% r%\n\
          cell_get r% r%\n\
          instanceof r% r% %\n\
          instanceof_sub r% r% %\n\
          get_field r% r% %\n\
          set_field r% r% %\n\
          get_index r% r% r%\n\
          set_index r% r% r%\n\
          dict_new r%\n\
          arr_new r% %\n\
          arr_push r% r%\n\
          ba_clone r% r%\n\
          if_true r% to @\n\
          if_false r% to @\n\
          jeq r% r% to @\n\
          jne r% r% to @\n\
          jlt r% r% to @\n\
          jle r% r% to @\n\
          jgt r% r% to @\n\
          jge r% r% to @\n\
          jnlt r% r% to @\n\
          jnle r% r% to @\n\
          jngt r% r% to @\n\
          jnge r% r% to @\n\
          jeq_imm16 r% ~ to @\n\
          jne_imm16 r% ~ to @\n\
          jlt_imm16 r% ~ to @\n\
          jle_imm16 r% ~ to @\n\
          jgt_imm16 r% ~ to @\n\
          jge_imm16 r% ~ to @\n\
          jnlt_imm16 r% ~ to @\n\
          jnle_imm16 r% ~ to @\n\
          jngt_imm16 r% ~ to @\n\
          jnge_imm16 r% ~ to @\n\
          jmp to @\n\
          call_opnd r% % %\n\
          call_host % r% %\n\
          call_direct % r% %\n\
          call_pc r% % %\n\
          call_method r% % %\n\
          call_method_host r% % % %\n\
          call_idiv_int r% % %\n\
          new % r% %\n\
          new_known_ctor r% % %\n\
          ret r%\n\
          ret_imm40 $",
        p.opcode,
        &[p.a, p.b, p.c, p.d, p.e],
        at,
    )
}

fn say_decoded(rt: &impl Print, d: Option<Op>, at: u64) -> io::Result<()> {
    match d {
        Some(i) => say_parts(rt, plain_op(i), at),
        None => say(rt, b"a word that does not decode"),
    }
}

fn list_word(rt: &impl Print, at: u64, w: u64) -> io::Result<()> {
    tell(rt, b"&  #  ", &[at, w])?;
    say_decoded(rt, decode::decode(w), at)?;
    say(rt, b"\n")
}

// Each word on a line of its own.
pub fn list_words(rt: &impl Print, words: &[u64]) -> io::Result<()> {
    for (at, word) in words.iter().enumerate() {
        list_word(rt, at as u64, *word)?;
    }
    Ok(())
}
