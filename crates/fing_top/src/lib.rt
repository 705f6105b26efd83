// The top call: `fing` does all that the program does, from the words and the source to the reply and the status.
// Stands on fing_words (words), fing_gen (the generated program), fing_lexer, fing_parser, fing_elab and fing_units (from
// bytes to a signature and a term), omega_simplify, omega_checker, omega_machine, the texts of sig_text, fing_refusals,
// omega_write and omega_read, and itoa (numbers in decimal).
// Proved: each answer comes with its cause, and what is written is the one reply that the definitions give for all the
// bytes of the source, or for the generated program; what is emitted was confirmed by the checker; where the bytes are
// known and nothing fails, that reply is written whole, or want of memory is answered and nothing is written. Each
// string of bytes has exactly one meaning or exactly one refusal; separate units that are linked mean what their program
// means. A command has exactly one reply to it, and each answer has
// its exit status.
#![tactic(auto)]

mod apart;
mod checking;
mod compiling;
mod counting;
mod emitting;
mod linking;
mod pages;
mod refusing;
mod running;
mod status;
mod top;
mod verifying;

pub use apart::link_apart;
pub use status::{Status, exit_code};
pub use top::{emitted_is_verified, fing, one_meaning, one_reply, reply};
