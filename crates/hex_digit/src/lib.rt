// One hexadecimal digit, 0 to 9 and A to F: its value, and the two digits of a byte. A digit is computed by shifts,
// masks, sums and differences within 32 bits: there is no product and no quotient on its way.
#![tactic(auto)]

ghost use Rattle.std.specs.Prelude.{◌≡◌, ◌+◌, ◌*◌, ◌/◌, ◌%◌};
ghost use Rattle.hex_digit.specs.Digit.{digit_value, digit_of};

// The value of a digit, and 16 for any other byte. A difference that wraps is great, so that one test asks for both
// ends of a range. A `match` over the two ranges is compiled to branches: a line is read slower by two fifths.
pub fn value_of(c: u8) -> u8
    ensures { result ≡ digit_value c }
{
    let decimal = c.wrapping_sub(b'0');
    let letter = c.wrapping_sub(b'A');
    if decimal < 10 {
        decimal
    } else if letter < 6 {
        letter + 10
    } else {
        16
    }
}

// The two digits of a byte in one number: the first, and 256 times the second. Both are computed at once: 6 more than a
// value is over 15 where its digit is a letter, and the letters stand 7 further on than the digits 0 to 9. The 7 is 8
// less 1, both shifted down from the bit that tells a letter: shifted up from a 1, as `(x << 3) - x`, it is compiled as
// a product.
pub fn digits_of(b: u8) -> u32
    ensures { result ≡ digit_of (b / 16) + digit_of (b % 16) * 256 }
{
    let values = u32::from(b >> 4) + (u32::from(b & 15) << 8);
    let letters = (values + 0x0606) & 0x1010;
    values + 0x3030 + ((letters >> 1) - (letters >> 4))
}
