// The demonstration program of document 01: reads GridConnect lines from standard input to its end, and prints what the
// demonstration board answers to each. What it prints is the library's (crate `gridconnect_session`): this program only
// reads and writes.
#![tactic(auto)]

mod standard;

ghost use Rattle.std.specs.Prelude.{◌≤◌, length};

use exec_registers::Registers;
use exec_spec::Board;
use gridconnect_input::Carry;
use std::io;

// A block of the input: its lines are answered, as many at a time as `out` has room for, and each text is written.
// Nothing more is answered where a text could not be written. Returns the beginning of a line that the next block goes
// on with. The index goes on by what was read, and not by one.
fn answer_block(
    rt: &HostRuntime,
    board: &Board<'_>,
    memory: &mut [u8],
    registers: &mut Registers,
    pool: &mut [u8; 576],
    places: &mut [u8; 64],
    block: &[u8],
    begun: Carry,
    out: &mut [u8],
) -> io::Result<Carry>
    requires { 290 ≤ length out.old }
{
    let mut carry = begun;
    let mut at: usize = 0;
    while at < block.len() {
        let done = gridconnect_session::answer_chunk(
            board, memory, registers, pool, places, block, at, carry, out,
        );
        carry = done.carry;
        at = done.at;
        standard::write(rt, buffer::part(out, 0, done.end))?;
    }
    Ok(carry)
}

// One read of the input, answered. At its end a last line that lacks its newline is answered, and nothing goes on.
fn answer_read(
    rt: &HostRuntime,
    board: &Board<'_>,
    memory: &mut [u8],
    registers: &mut Registers,
    pool: &mut [u8; 576],
    places: &mut [u8; 64],
    begun: Carry,
    input: &mut [u8],
    out: &mut [u8],
) -> io::Result<Option<Carry>>
    requires { 290 ≤ length out.old }
{
    let n = standard::read(rt, input)?;
    if n > 0 {
        let block = buffer::part(input, 0, n);
        let carry = answer_block(
            rt, board, memory, registers, pool, places, block, begun, out,
        )?;
        return Ok(Some(carry));
    }
    let end = gridconnect_session::answer_end(board, memory, registers, pool, places, begun, out);
    standard::write(rt, buffer::part(out, 0, end))?;
    Ok(None)
}

// A proved loop has to end, and nothing says that the input does: the reads are counted.
fn main(rt: HostRuntime) -> io::Result<()> {
    let board = Board {
        alias: demo_board::alias(),
        write_lengths: demo_board::write_lengths(),
        spaces: &demo_board::table_bytes(),
        flash: &demo_board::flash_bytes(),
    };
    let mut memory = demo_board::memory_bytes();
    let mut registers = exec_registers::new_registers();
    let mut pool = [0u8; 576];
    let mut places = rx_spec::new_places();
    let mut input = [0u8; 65536];
    let mut out = [0u8; 65536];
    let mut carry = gridconnect_input::start();
    for _ in 0..u64::MAX {
        let Some(left) = answer_read(
            &rt,
            &board,
            &mut memory,
            &mut registers,
            &mut pool,
            &mut places,
            carry,
            &mut input,
            &mut out,
        )?
        else {
            break;
        };
        carry = left;
    }
    Ok(())
}
