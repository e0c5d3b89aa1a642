// The errors of a description by numbers alone: B11 to B14 by the sizes of a board and its alias, B2 to B4 of one
// space.
#![tactic(auto)]

ghost use Rattle.std.specs.Prelude.{ℕ, ◌≡◌};
ghost use Rattle.call_error.specs.CallErrors.{passes, limits_check, window_check};

use call_error::{CallError, Checked};
use space_table::Space;

// B11 to B14, by the number of spaces, the sizes of memory and flash, and the alias.
pub fn check_limits(space_count: usize, memory_len: usize, flash_len: usize, alias: u16) -> Checked
    ensures { result ≡ limits_check alias space_count flash_len memory_len }
{
    if 16 < space_count {
        return Err(CallError::B11TooManySpaces);
    }
    if 65536 < memory_len {
        return Err(CallError::B12MemoryTooLarge);
    }
    if 65536 < flash_len {
        return Err(CallError::B13FlashTooLarge);
    }
    if alias == 0 {
        return Err(CallError::B14AliasOutOfRange);
    }
    if 4095 < alias {
        return Err(CallError::B14AliasOutOfRange);
    }
    Ok(())
}

// B2, B3 and B4 of the space at a position.
pub fn check_window(space: Space, position: u8, flash_len: usize, memory_len: usize) -> Checked
    ensures { result ≡ window_check flash_len memory_len position space }
{
    if space.highest < space.lowest {
        return Err(CallError::B2LowestAboveHighest(position));
    }
    let end = space.offset as usize + space_lookup::size_of(space);
    if space.in_flash {
        if flash_len < end {
            return Err(CallError::B3WindowPastEnd(position));
        }
        if space.read_only {
            return Ok(());
        }
        return Err(CallError::B4MustBeReadOnly(position));
    }
    if memory_len < end {
        return Err(CallError::B3WindowPastEnd(position));
    }
    if space.read_only {
        return Ok(());
    }
    if space.number == 0xFF {
        return Err(CallError::B4MustBeReadOnly(position));
    }
    Ok(())
}

// Whether none of these refuses the space, at whatever position: the one that is handed on plays no part.
pub fn window_passes(space: Space, flash_len: usize, memory_len: usize) -> bool
    ensures { (position : ℕ) → result ≡ passes (window_check flash_len memory_len position space) }
{
    check_window(space, 0, flash_len, memory_len).is_ok()
}
