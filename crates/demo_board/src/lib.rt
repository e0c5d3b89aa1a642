// The demonstration board of document 01.
#![tactic(auto)]

ghost use Rattle.std.specs.Prelude.{◌≡◌};
ghost use Rattle.space_table.specs.Table.{spaces_in};
ghost use Rattle.demo_board.specs.Board.{demo_alias, demo_write_lengths, demo_spaces, demo_flash, demo_memory, row_of};
ghost use Rattle.demo_board.specs.Cases.{ProvedCases};
ghost use Rattle.demo_board.specs.PaperSession.{PaperSession};

pub fn alias() -> u16
    ensures { result ≡ demo_alias }
{
    0x22B
}

pub fn write_lengths() -> u8
    ensures { result ≡ demo_write_lengths }
{
    0xF2
}

// A row of the table: the number, read-only, in flash, a byte without meaning, and then lowest, highest and offset,
// least significant byte first.
fn row(number: u8, read_only: u8, in_flash: u8, lowest: u16, highest: u16, offset: u8) -> [u8; 16]
    ensures { result ≡ row_of number read_only in_flash lowest highest offset }
{
    [
        number,
        read_only,
        in_flash,
        0,
        (lowest % 256) as u8,
        (lowest / 256) as u8,
        0,
        0,
        (highest % 256) as u8,
        (highest / 256) as u8,
        0,
        0,
        offset,
        0,
        0,
        0,
    ]
}

// The table of its spaces, of which document 01's proved cases hold.
pub fn table_bytes() -> [u8; 64]
    ensures spaces { spaces_in result ≡ demo_spaces }
    ensures cases { ProvedCases }
{
    let mut table = [0u8; 64];
    buffer::put(&mut table, 0, &row(0xFD, 0, 0, 0, 0x1F, 0));
    buffer::put(&mut table, 16, &row(0xFE, 0, 0, 0, 0x2F, 0));
    buffer::put(&mut table, 32, &row(0xFF, 1, 1, 0, 0xF, 0));
    buffer::put(&mut table, 48, &row(0x10, 0, 0, 0x100, 0x10F, 32));
    table
}

// Its flash: `<cdi/>` and ten zeros.
pub fn flash_bytes() -> [u8; 16]
    ensures { result ≡ demo_flash }
{
    [
        b'<', b'c', b'd', b'i', b'/', b'>', 0, 0, 0, 0, 0, 0, 0, 0, 0, 0,
    ]
}

// Its memory at the start, from which document 01's session prints as the paper has it.
pub fn memory_bytes() -> [u8; 48]
    ensures memory { result ≡ demo_memory }
    ensures session { PaperSession }
{
    [0u8; 48]
}
