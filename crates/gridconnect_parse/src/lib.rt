// GridConnect read: the form of a line, and the frame that it stands for.
#![tactic(auto)]

ghost use Rattle.std.specs.Prelude.{◌≡◌};
ghost use Rattle.gridconnect_parse.specs.Parsing.{parse_of, ReadBack};
ghost use Rattle.gridconnect_parse.specs.Form.{formed};

use can_frame::Frame;
use hex_read::HexBytes;

// What a line stands for: the frame, or none where the line is any other.
pub type Parsed = Option<Frame>;

// Reads a line, which is handed in without its newline. Every header of eight digits is taken: which ones are used is
// not decided here.
pub fn parse_line(line: &[u8]) -> Parsed
    ensures value { result ≡ parse_of line.now }
    ensures read_back { ReadBack }
{
    if !is_formed(line) {
        return None;
    }
    let header = hex_read::read_number(&line[2..10])?;
    let end = line.len() - 1;
    let HexBytes { len, bytes } = hex_read::read_bytes(&line[11..end])?;
    Some(Frame { header, len, bytes })
}

// Whether the line has the marks and the length of one.
#[tactic(auto, unfolding(crate::specs::Form::formed))]
pub fn is_formed(line: &[u8]) -> bool
    ensures { result ≡ formed line.now }
{
    let n = line.len();
    if 28 < n || n & 1 != 0 {
        return false;
    }
    matches!(line, [b':', b'X', _, _, _, _, _, _, _, _, b'N', .., b';'])
}
