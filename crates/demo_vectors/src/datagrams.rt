// A datagram on a fresh demonstration board: the answer, the reply, and what it changed.
use crate::boards::Refusal;
use crate::bytes::Hex;
use crate::lines::digit_value;
use call_error::CallError;
use exec_registers::Registers;
use exec_spec::Board;
use reply_answer::Answer;
use std::{fmt, io};

// The reply buffer is filled with this before each call, so that a byte past the reply that changed is seen.
const FILL: u8 = 0xEE;

// The lock memory of a board whose lock nobody holds, and of one whose lock is held.
const FREE: [u8; 6] = [0; 6];

const HELD: [u8; 6] = [0x05, 0x01, 0x01, 0x01, 0x22, 0x00];

// How the board of a datagram is set up: how many of the demonstration board's spaces it describes, and its lock memory
// before.
#[derive(Clone, Copy)]
pub struct Setup {
    count: u8,
    lock: [u8; 6],
}

impl Setup {
    // The demonstration board as it is.
    pub fn whole() -> Setup {
        Setup {
            count: 4,
            lock: FREE,
        }
    }

    // Changed by the settings of a line.
    pub fn set(&mut self, settings: &[u8]) {
        for setting in settings {
            match *setting {
                b'L' => self.lock = HELD,
                b'U' => self.lock = FREE,
                b'\n' => {}
                digit => self.count = digit_value(digit),
            }
        }
    }
}

// What came of a datagram, with the reply buffer afterwards.
#[derive(Drop)]
struct Outcome<'a> {
    handled: Result<Answer, CallError>,
    reply: &'a [u8],
}

impl fmt::Display for Outcome<'_> {
    fn fmt<W: fmt::Write>(&self, f: &mut fmt::Formatter<W>) -> fmt::Result {
        match self.handled {
            Err(error) => write!(f, "{}", Refusal(error)),
            Ok(answer) => write_answer(f, answer, self.reply),
        }
    }
}

fn write_answer<W: fmt::Write>(
    f: &mut fmt::Formatter<W>,
    answer: Answer,
    reply: &[u8],
) -> fmt::Result {
    let rest = match answer {
        Answer::Rejected(code) => {
            write!(f, "Rejected {code:04X}")?;
            reply
        }
        Answer::Written(_, _) | Answer::UpdateComplete => {
            write!(f, "Received OK 00")?;
            reply
        }
        Answer::Replied(length) => {
            let Some((sent, rest)) = reply.split_at_checked(length) else {
                return write!(f, " REPLY OUT OF THE BUFFER");
            };
            write!(f, "Received OK 80, reply {}", Hex(sent))?;
            rest
        }
    };
    if !rest.iter().all(|byte| *byte == FILL) {
        write!(f, " BUFFER CHANGED PAST THE REPLY")?;
    }
    Ok(())
}

// Each byte of memory that is not zero any more, with its index.
#[derive(Drop)]
struct Changes<'a>(&'a [u8]);

impl fmt::Display for Changes<'_> {
    fn fmt<W: fmt::Write>(&self, f: &mut fmt::Formatter<W>) -> fmt::Result {
        for (index, byte) in self.0.iter().enumerate() {
            if *byte != 0 {
                write!(f, ", memory {index:02X}={byte:02X}")?;
            }
        }
        Ok(())
    }
}

// A datagram handled by a board that describes the first `count` of the demonstration board's spaces.
fn handle(
    datagram: &[u8],
    count: u8,
    memory: &mut [u8],
    registers: &mut Registers,
    reply: &mut [u8],
) -> Result<Answer, CallError> {
    let table = demo_board::table_bytes();
    let described = table.len().min(16 * count as usize);
    let board = Board {
        alias: demo_board::alias(),
        write_lengths: demo_board::write_lengths(),
        spaces: &table[..described],
        flash: &demo_board::flash_bytes(),
    };
    node_call::handle_datagram(&board, memory, registers, datagram, reply)
}

// The line for a datagram.
pub fn run(rt: &impl io::Print, datagram: &[u8], setup: Setup) -> io::Result<()> {
    let mut memory = demo_board::memory_bytes();
    let mut registers = exec_registers::new_registers();
    exec_registers::put_lock(&mut registers, setup.lock);
    let mut reply = [FILL; 80];
    let handled = handle(
        datagram,
        setup.count,
        &mut memory,
        &mut registers,
        &mut reply,
    );
    let outcome = Outcome {
        handled,
        reply: &reply,
    };
    let lock = exec_registers::lock_in(&registers);
    println!(rt;
        "{}: {}{}, lock {}",
        Hex(datagram),
        outcome,
        Changes(&memory),
        Hex(&lock)
    )
}
