// The spaces of the board description: the lookup of a space by its number, and its window.
#![tactic(auto)]

ghost use Rattle.std.specs.Prelude.{◌≡◌, ◌≤◌};
ghost use Rattle.space_table.specs.Table.{spaces_in};
ghost use Rattle.space_lookup.specs.Description.{size_of, left_out, find_space, window_of, lowest_number};

use space_table::Space;

// What is known of a space's number. `Empty` says whether the empty space is read-only.
#[derive(Clone, Copy)]
pub enum Found {
    Described(Space),
    Empty(bool),
    Unknown,
}

// How many addresses a space has: none where its lowest is above its highest.
pub fn size_of(space: Space) -> usize
    ensures { (result ≡ size_of space) × (result ≤ 4294967296) }
{
    if space.highest < space.lowest {
        0
    } else {
        (space.highest - space.lowest) as usize + 1
    }
}

// What is known of the space with that number.
pub fn find_space(spaces: &[u8], number: u8) -> Found
    ensures { result ≡ find_space (spaces_in spaces.now) number }
{
    for row in spaces.chunks_exact(16) {
        if row[0] == number {
            return Found::Described(space_table::space_at(row, 0));
        }
    }
    left_out(number)
}

// The lowest number among the described spaces and 0xFD.
pub fn lowest_number(spaces: &[u8]) -> u8
    ensures { result ≡ lowest_number (spaces_in spaces.now) }
{
    let mut lowest: u8 = 0xFD;
    for row in spaces.chunks_exact(16) {
        lowest = lowest.min(row[0]);
    }
    lowest
}

// The bytes of a space: a part of flash or of memory, as far as that has them. (B3 refuses a space of which it lacks
// some.)
pub fn window<'a>(space: Space, flash: &'a [u8], memory: &'a [u8]) -> &'a [u8]
    ensures { result.now ≡ window_of flash.now memory.now space }
{
    let store = if space.in_flash { flash } else { memory };
    buffer::part(store, space.offset as usize, size_of(space))
}

// What is known of a number that is not described.
fn left_out(number: u8) -> Found
    ensures { result ≡ left_out number }
{
    if number < 0xFD {
        Found::Unknown
    } else {
        Found::Empty(number == 0xFF)
    }
}
