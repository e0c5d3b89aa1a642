// The table of spaces that the board lends, sixteen bytes for each space.
#![tactic(auto)]

ghost use Rattle.std.specs.Prelude.{◌≡◌, ◌≤◌, length};
ghost use Rattle.space_table.specs.Table.{row_at, space_at, spaces_in};

// One address space. Both its lowest and its highest address are in it. It lies in flash or in working memory, from
// `offset` on.
#[repr(C)]
#[derive(Clone, Copy)]
pub struct Space {
    pub number: u8,
    pub read_only: bool,
    pub in_flash: bool,
    pub lowest: u32,
    pub highest: u32,
    pub offset: u32,
}

// How many spaces a table has. Bytes behind the last whole space are no space.
pub fn space_count(table: &[u8]) -> usize
    ensures { result ≡ length (spaces_in table.now) }
{
    table.len() / 16
}

// Space i of a table, and a space without an address where the table has no such space.
pub fn space_at(table: &[u8], i: usize) -> Space
    ensures { result ≡ space_at table.now i }
{
    if i < table.len() / 16 {
        return space_in(&table[16 * i..16 * i + 16]);
    }
    Space {
        number: 0,
        read_only: true,
        in_flash: false,
        lowest: 1,
        highest: 0,
        offset: 0,
    }
}

// The space in a row of sixteen bytes.
fn space_in(row: &[u8]) -> Space
    requires { length row.now ≡ 16 }
    ensures { result ≡ row_at row.now 0 }
{
    Space {
        number: row[0],
        read_only: row[1] != 0,
        in_flash: row[2] != 0,
        lowest: buffer::number_at(row, 4),
        highest: buffer::number_at(row, 8),
        offset: buffer::number_at(row, 12),
    }
}
