// B2 to B5 of the spaces of a table, in their order, each with the position of the space.
ghost use Rattle.std.specs.Prelude.{◌≡◌, true, [], ◌*◌, ◌≤◌, length, Ok};
ghost use Rattle.space_table.specs.Table.{spaces_from, spaces_in};
ghost use Rattle.call_error.specs.CallErrors.{among, space_numbers, spaces_check};

use call_error::{CallError, Checked};

// B2 to B5 of the spaces of a table, at most 16, in their order.
pub fn check_spaces(table: &[u8], flash_len: usize, memory_len: usize) -> Checked
    requires { length (spaces_in table.now) ≤ 16 }
    ensures { result ≡ spaces_check flash_len memory_len [] (spaces_in table.now) }
{
    if pass_quickly(table, flash_len, memory_len) {
        return Ok(());
    }
    check_each(table, flash_len, memory_len)
}

// Whether the spaces pass a quick look, which knows nothing of positions; where they do, nothing refuses them. Each
// sets a mark, the bit at the remainder of its number by 32: as long as each changes the marks, no number is used
// twice.
fn pass_quickly(table: &[u8], flash_len: usize, memory_len: usize) -> bool
    ensures { result ≡ true → spaces_check flash_len memory_len [] (spaces_in table.now) ≡ Ok tt }
{
    let mut marks = 0u32;
    for i in 0..space_table::space_count(table) {
        let space = space_table::space_at(table, i);
        if !call_limits::window_passes(space, flash_len, memory_len) {
            return false;
        }
        let marked = marks | 1u32 << (space.number % 32);
        if marked == marks {
            return false;
        }
        marks = marked;
    }
    true
}

// B2 to B5 of each space with its position, B5 by a look through the earlier ones.
fn check_each(table: &[u8], flash_len: usize, memory_len: usize) -> Checked
    requires { length (spaces_in table.now) ≤ 16 }
    ensures { result ≡ spaces_check flash_len memory_len [] (spaces_in table.now) }
{
    for i in 0..space_table::space_count(table) {
        let position = i as u8;
        let space = space_table::space_at(table, i);
        call_limits::check_window(space, position, flash_len, memory_len)?;
        if is_used(table, i, space.number) {
            return Err(CallError::B5NumberUsedTwice(position));
        }
    }
    Ok(())
}

// Whether one of the first `count` spaces of a table has the number.
fn is_used(table: &[u8], count: usize, number: u8) -> bool
    requires { 16 * count ≤ length table.now }
    ensures { result ≡ among number (space_numbers (spaces_from table.now 0 count)) }
{
    for row in 0..count {
        if table[16 * row] == number {
            return true;
        }
    }
    false
}
