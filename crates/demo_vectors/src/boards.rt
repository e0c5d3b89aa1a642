// A board by its bytes, and the error of the caller that refuses it.
use crate::bytes::Hex;
use call_error::CallError;
use std::{fmt, io};

// An error of the caller, with the position of the space that it refuses.
#[derive(Clone, Copy)]
pub struct Refusal(pub CallError);

impl fmt::Display for Refusal {
    fn fmt<W: fmt::Write>(&self, f: &mut fmt::Formatter<W>) -> fmt::Result {
        write!(f, "refused by B{}", call_error::number_of(self.0))?;
        match call_error::position_of(self.0) {
            Some(index) => write!(f, " of space {index}"),
            None => Ok(()),
        }
    }
}

// The first error of a board: alias in bytes 0 and 1, memory 2 to 4, flash 5 to 7, reply buffer 8, and then the table.
// The bytes that a short line lacks are zeros.
fn check_board(sizes: &[u8], spaces: &[u8]) -> Result<(), CallError> {
    let mut bytes = [0u8; 9];
    for (byte, given) in bytes.iter_mut().zip(sizes) {
        *byte = *given;
    }
    let [a0, a1, m0, m1, m2, f0, f1, f2, reply_len] = bytes;
    call_check::check_call(
        u16::from_be_bytes([a0, a1]),
        spaces,
        u32::from_be_bytes([0, f0, f1, f2]) as usize,
        u32::from_be_bytes([0, m0, m1, m2]) as usize,
        reply_len as usize,
    )
}

// The line for a board.
pub fn run(rt: &impl io::Print, board: &[u8]) -> io::Result<()> {
    let (sizes, spaces) = board.split_at(board.len().min(9));
    print!(rt;
        "{} and a table of {:04X} bytes: ",
        Hex(sizes),
        spaces.len()
    )?;
    match check_board(sizes, spaces) {
        Ok(()) => println!(rt; "not refused"),
        Err(error) => println!(rt; "{}", Refusal(error)),
    }
}
