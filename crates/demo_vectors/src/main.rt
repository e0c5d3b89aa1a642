// Runs whole datagrams, each on a fresh demonstration board, and prints for each: the datagram, the answer, the reply,
// the bytes of memory that changed, and the lock memory afterwards. The datagrams are lines of hexadecimal digits on
// standard input. A line that starts with `#` is printed again; `@` and a digit says how many of the board's spaces are
// described from there on, `@L` that the lock is held before each datagram, and `@U` that it is free. A line that
// starts with `!` is a board, and is answered by the error that refuses it: the alias in two bytes, the sizes of
// memory and flash in three each, that of the reply buffer in one, and the table of spaces.
#![tactic(auto)]

mod boards;
mod bytes;
mod datagrams;
mod lines;

ghost use Rattle.std.specs.Prelude.{◌≤◌, length, IfOk};

use datagrams::Setup;
use lines::Line;
use std::io;
use std::io::{ErrorKind, Print, Read};

// What is past this many bytes of the input is not read, and what is past so many bytes of a line is left out.
const LONGEST_INPUT: usize = 65_536;

const LONGEST_LINE: usize = 288;

// Reads to the end of the input, as far as there is room for it, and returns how many bytes there are. A read that a
// signal interrupts is made again; a proved loop has to end, and nothing says that interruptions do: the reads are
// counted. `read_to_end` wants a Vec, and with it the heap's C functions would be assumed.
fn read_input(rt: &HostRuntime, input: &mut [u8]) -> io::Result<usize>
    ensures { IfOk result (λ count. count ≤ length input.new) }
{
    let mut stdin = rt.stdin().take(input.len() as u64);
    let mut count = 0;
    for _ in 0..u64::MAX {
        match stdin.read(&mut input[count..]) {
            Ok(0) => break,
            Ok(more) => count += more,
            Err(error) if error.kind() == ErrorKind::Interrupted => {}
            Err(error) => return Err(error),
        }
    }
    Ok(count)
}

fn run_line(rt: &HostRuntime, text: &[u8], setup: &mut Setup) -> io::Result<()> {
    let mut room = [0; LONGEST_LINE];
    match lines::line_of(text) {
        Line::Title(title) => rt.write_all(title),
        Line::Settings(settings) => {
            setup.set(settings);
            Ok(())
        }
        Line::Board(digits) => boards::run(rt, lines::bytes_of(digits, &mut room)),
        Line::Datagram(digits) => datagrams::run(rt, lines::bytes_of(digits, &mut room), *setup),
        Line::Unfinished => Ok(()),
    }
}

fn main(rt: HostRuntime) -> io::Result<()> {
    let mut input = [0; LONGEST_INPUT];
    let count = read_input(&rt, &mut input)?;
    let mut setup = Setup::whole();
    for text in input[..count].split_inclusive(|byte| *byte == b'\n') {
        run_line(&rt, text, &mut setup)?;
    }
    Ok(())
}
