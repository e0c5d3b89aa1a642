// Standard input and standard output. A call that a signal interrupts before it moves a byte is made again; one that
// fails ends the program, which says so on standard error.
use std::io;
use std::io::{ErrorKind, Print, Read};

// Reads some bytes, and returns how many: none at the end of the input. A proved loop has to end, and nothing says that
// interruptions do: the calls are counted. One read at once, since a terminal is answered line by line; std's loops that
// read again after an interruption read to the end.
pub fn read(rt: &HostRuntime, input: &mut [u8]) -> io::Result<usize> {
    for _ in 0..u64::MAX {
        match rt.stdin().read(input) {
            Ok(count) => return Ok(count),
            Err(error) => {
                if error.kind() != ErrorKind::Interrupted {
                    return Err(error);
                }
            }
        }
    }
    Ok(0)
}

// Writes all of the text, or fails, so that nothing is written behind what is missing.
pub fn write(rt: &HostRuntime, text: &[u8]) -> io::Result<()> {
    rt.write_all(text)
}
