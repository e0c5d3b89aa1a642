// An input in chunks cut into lines.
#![tactic(auto)]

ghost use Rattle.std.specs.Prelude.{◌≡◌, ◌++◌};
ghost use Rattle.gridconnect_parse.specs.Parsing.{parse_of};
ghost use Rattle.gridconnect_input.specs.Input.{begun_of, next_of, last_of, LineStep, InputEnds, AnyCuts};

use gridconnect_input::{Carry, Next};
use gridconnect_parse::Parsed;

// Reads the line that was begun in the carry and ends with the part. A line that stands whole in the chunk is not
// copied.
fn parse_end(carry: Carry, part: &[u8]) -> Parsed
    ensures { result ≡ parse_of (begun_of carry ++ part.now) }
{
    if carry.len == 0 {
        return gridconnect_parse::parse_line(part);
    }
    let whole = gridconnect_input::append(carry, part);
    let n = whole.len as usize;
    let text = whole.text;
    gridconnect_parse::parse_line(&text[..n])
}

// Reads the chunk from index `from` on, up to and including the next newline or to the chunk's end. An index past the
// end is like the end.
pub fn next_line(chunk: &[u8], from: usize, carry: Carry) -> Next
    ensures value { result ≡ next_of carry chunk.now from }
    ensures step { LineStep carry chunk.now from result }
    ensures cuts { AnyCuts }
{
    let rest = buffer::part(chunk, from, chunk.len());
    let n = gridconnect_input::line_size(rest);
    if n < rest.len() {
        let parsed = parse_end(carry, &rest[..n]);
        let nothing_begun = gridconnect_input::start();
        return Next {
            line: Some(parsed),
            carry: nothing_begun,
            at: from + n + 1,
        };
    }
    Next {
        line: None,
        carry: gridconnect_input::append(carry, rest),
        at: chunk.len(),
    }
}

// The end of the input: a last line that lacks its newline is a line, and nothing left is none.
pub fn last_line(carry: Carry) -> Next
    ensures value { result ≡ last_of carry }
    ensures ends { InputEnds carry result }
{
    let line = if carry.len == 0 {
        None
    } else {
        Some(parse_end(carry, b""))
    };
    Next {
        line,
        carry: gridconnect_input::start(),
        at: 0,
    }
}
