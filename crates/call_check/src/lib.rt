// The errors of a call: B11 to B14 and B2 to B5 in the board description, B6 in the reply buffer.
#![tactic(auto)]

mod checks;

ghost use Rattle.std.specs.Prelude.{◌≡◌};
ghost use Rattle.space_table.specs.Table.{spaces_in};
ghost use Rattle.call_error.specs.CallErrors.{description_check};
ghost use Rattle.call_error.specs.Positions.{Positioned};
ghost use Rattle.call_check.specs.Calls.{call_check};

use call_error::{CallError, Checked};

// The bytes that the longest reply takes: B6 refuses a shorter buffer.
const LONGEST_REPLY: usize = 72;

// The first of B11 to B14 and B2 to B5 that applies.
fn check_description(alias: u16, spaces: &[u8], flash_len: usize, memory_len: usize) -> Checked
    ensures { result ≡ description_check alias (spaces_in spaces.now) flash_len memory_len }
{
    call_limits::check_limits(
        space_table::space_count(spaces),
        memory_len,
        flash_len,
        alias,
    )?;
    checks::check_spaces(spaces, flash_len, memory_len)
}

// The first of B11 to B14 and B2 to B6 that applies, and what its position says.
pub fn check_call(
    alias: u16,
    spaces: &[u8],
    flash_len: usize,
    memory_len: usize,
    reply_len: usize,
) -> Checked
    ensures first { result ≡ call_check alias (spaces_in spaces.now) flash_len memory_len reply_len }
    ensures position { Positioned alias flash_len memory_len (spaces_in spaces.now) result }
{
    check_description(alias, spaces, flash_len, memory_len)?;
    if reply_len < LONGEST_REPLY {
        return Err(CallError::B6ReplyBufferTooShort);
    }
    Ok(())
}
