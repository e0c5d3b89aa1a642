// Hexadecimal digits read from text: pairs of them as bytes, and eight as a number of 32 bits. There is no product and
// no quotient on the way of a digit.
#![tactic(auto)]

ghost use Rattle.std.specs.Prelude.{◌≡◌, ◌+◌, ◌*◌, ◌%◌};
ghost use Rattle.hex_read.specs.Reading.{read_of, BytesBack, BytesAgain, read_number, NumberBack, NumberAgain};

// The bytes that some digits stand for: the first `len` of eight.
#[derive(Clone, Copy)]
pub struct HexBytes {
    pub len: u32,
    pub bytes: [u8; 8],
}

// The byte of two values, of each of which the low four bits count.
fn byte_of(high: u8, low: u8) -> u8
    ensures { result ≡ high % 16 * 16 + low % 16 }
{
    ((high & 15) << 4) + (low & 15)
}

// Reads pairs of digits, at most 16 digits. Whether all are digits is asked once, at the end: `worst` is over 15 where
// one is not. The pairs are found by index: `chunks_exact` divides the length.
pub fn read_bytes(text: &[u8]) -> Option<HexBytes>
    ensures value { result ≡ read_of text.now }
    ensures read_back { BytesBack }
    ensures printed_again { BytesAgain }
{
    let size = text.len();
    if 16 < size || size & 1 != 0 {
        return None;
    }
    let mut bytes = [0u8; 8];
    let mut worst: u8 = 0;
    // Two digits a turn: of a `for` over the pairs the compiler lays eight turns one behind the other on a small processor,
    // which takes 620 bytes more of its flash.
    let mut n: usize = 0;
    let mut i: usize = 0;
    while i < size {
        let high = hex_digit::value_of(text[i]);
        let low = hex_digit::value_of(text[i + 1]);
        worst = worst | high | low;
        bytes[n] = byte_of(high, low);
        n += 1;
        i += 2;
    }
    if 15 < worst {
        return None;
    }
    Some(HexBytes {
        len: n as u32,
        bytes,
    })
}

// Reads eight digits, most significant first. They are found by index: an iterator over a slice has a product before it is
// optimised.
pub fn read_number(text: &[u8]) -> Option<u32>
    ensures value { result ≡ read_number text.now }
    ensures read_back { NumberBack }
    ensures printed_again { NumberAgain }
{
    if text.len() != 8 {
        return None;
    }
    let mut value: u32 = 0;
    let mut worst: u8 = 0;
    for i in 0..8 {
        let digit = hex_digit::value_of(text[i]);
        worst = worst | digit;
        value = (value << 4) + u32::from(digit & 15);
    }
    if 15 < worst {
        return None;
    }
    Some(value)
}
