// What a line of the input says.
ghost use Rattle.std.specs.Prelude.{◌<◌, ◌≤◌, length};

// A title is printed again, with its `#` and its newline. Settings are for the datagrams from there on. A board and a
// datagram are given in digits. A last line that has no newline says nothing, but for a title.
#[derive(Clone, Copy)]
pub enum Line<'a> {
    Title(&'a [u8]),
    Settings(&'a [u8]),
    Board(&'a [u8]),
    Datagram(&'a [u8]),
    Unfinished,
}

// The line of a text whose only newline, if it has one, is its last byte.
pub fn line_of(text: &[u8]) -> Line<'_> {
    let mark = text
        .iter()
        .position(|byte| matches!(byte, b'#' | b'@' | b'\n'));
    let Some(at) = mark else {
        return Line::Unfinished;
    };
    let (digits, marked) = text.split_at(at);
    match marked {
        [b'#', ..] => Line::Title(marked),
        [b'@', settings @ ..] => Line::Settings(settings),
        _ if digits.contains(&b'!') => Line::Board(digits),
        _ => Line::Datagram(digits),
    }
}

// The bytes that digits stand for, two for each, as far as there is room. Blanks and the `!` of a board mean nothing,
// nor does an odd digit at the end.
pub fn bytes_of<'a>(digits: &[u8], room: &'a mut [u8]) -> &'a [u8]
    ensures { length result.now ≤ length room.old }
{
    let mut values = digits
        .iter()
        .filter(|byte| !matches!(byte, b' ' | b'!'))
        .map(|byte| digit_value(*byte));
    for (count, byte) in room.iter_mut().enumerate() {
        let (Some(high), Some(low)) = (values.next(), values.next()) else {
            return &room[..count];
        };
        *byte = high << 4 | low;
    }
    room
}

// The value of a digit. Unlike `hex_digit::value_of`, it takes small letters, and gives any byte some value.
pub fn digit_value(byte: u8) -> u8
    ensures { result < 16 }
{
    if byte < b'A' {
        byte % 16
    } else {
        (byte - b'A' + 10) % 16
    }
}
