// What a read or a write reaches: a described space, or why it fails.
#![tactic(auto)]

ghost use Rattle.std.specs.Prelude.{◌≡◌};
ghost use Rattle.space_lookup.specs.Description.{find_space};
ghost use Rattle.space_table.specs.Table.{spaces_in};
ghost use Rattle.space_reach.specs.Reach.{code_of, inside, access};

use space_lookup::Found;
use space_table::Space;

// Why a read or a write fails: the space is neither described nor 0xFD to 0xFF; an address is outside the space, or the
// space is empty; a write to a read-only space.
#[derive(Clone, Copy)]
pub enum Failure {
    UnknownSpace,
    OutOfBounds,
    ReadOnlySpace,
}

// The code in a failure reply: document 01, "Refused because of the state".
pub fn code_of(failure: Failure) -> u16
    ensures { result ≡ code_of failure }
{
    match failure {
        Failure::UnknownSpace => 0x1081,
        Failure::OutOfBounds => 0x1082,
        Failure::ReadOnlySpace => 0x1083,
    }
}

// Whether all of the n addresses from the address on are in the space.
fn is_inside(space: Space, address: u32, n: usize) -> bool
    ensures { result ≡ inside space address n }
{
    let end = space.highest as usize + 1;
    let at = address as usize;
    space.lowest <= address && at <= end && n <= end - at
}

// Whether a described space is reached, by a write only where it is writable.
fn reach_space(writes: bool, space: Space, address: u32, n: usize) -> Result<Space, Failure>
    ensures { result ≡ access writes (Found.Described space) address n }
{
    if writes && space.read_only {
        Err(Failure::ReadOnlySpace)
    } else if is_inside(space, address, n) {
        Ok(space)
    } else {
        Err(Failure::OutOfBounds)
    }
}

// The failures, in their order.
fn reach_found(writes: bool, found: Found, address: u32, n: usize) -> Result<Space, Failure>
    ensures { result ≡ access writes found address n }
{
    match found {
        Found::Described(space) => reach_space(writes, space, address, n),
        Found::Empty(read_only) if writes && read_only => Err(Failure::ReadOnlySpace),
        Found::Empty(_) => Err(Failure::OutOfBounds),
        Found::Unknown => Err(Failure::UnknownSpace),
    }
}

// What a read or a write of n bytes from the address on reaches in the space with that number.
pub fn reach(
    spaces: &[u8],
    writes: bool,
    number: u8,
    address: u32,
    n: usize,
) -> Result<Space, Failure>
    ensures { result ≡ access writes (find_space (spaces_in spaces.now) number) address n }
{
    reach_found(writes, space_lookup::find_space(spaces, number), address, n)
}
