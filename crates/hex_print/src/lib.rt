// A number of 32 bits as eight hexadecimal digits, and bytes as pairs of them, put into text. The digits are those of
// `hex_digit`: there is no product and no quotient on their way.
#![tactic(auto)]

ghost use Rattle.std.specs.Prelude.{◌≡◌, ◌+◌, ◌-◌, ◌*◌, ◌/◌, ◌≤◌, ◌<◌, cond, length, take, drop};
ghost use Rattle.buffer.specs.Buffer.{put_at, placed};
ghost use Rattle.hex_print.specs.Digits.{digits_of, hex_digits, PlaceValue};

// Puts the two digits of a byte.
fn put_pair(b: u8, out: &mut [u8], at: usize)
    requires { at + 1 < length out.old }
    ensures { out.new ≡ put_at at (hex_digits 2 b) out.old }
{
    let pair = hex_digit::digits_of(b);
    out[at] = (pair & 255) as u8;
    out[at + 1] = (pair >> 8) as u8;
}

// Puts the digits of all bytes.
fn put_all(bytes: &[u8], out: &mut [u8], at: usize)
    requires { at + length bytes.now * 2 ≤ length out.old }
    ensures { out.new ≡ put_at at (digits_of bytes.now) out.old }
{
    for i in 0..bytes.len() {
        put_pair(bytes[i], out, at + i + i);
    }
}

// Puts the digits of the next `n` bytes, where they are wanted, and returns the index of the byte behind them.
fn put_part(wanted: bool, bytes: &[u8], from: usize, n: usize, out: &mut [u8], at: usize) -> usize
    requires { (from + cond wanted n 0 ≤ length bytes.now) × (at + length bytes.now * 2 ≤ length out.old) }
    ensures end { result ≡ from + cond wanted n 0 }
    ensures out { out.new ≡ put_at (at + from * 2) (digits_of (take (cond wanted n 0) (drop from bytes.now)))
        out.old }
{
    if !wanted {
        return from;
    }
    let end = from + n;
    put_all(&bytes[from..end], out, at + from + from);
    end
}

// Puts the digits of as many times eight bytes as are left, and returns the index of the byte behind them.
fn put_eights(bytes: &[u8], from: usize, out: &mut [u8], at: usize) -> usize
    requires { (from ≤ length bytes.now) × (at + length bytes.now * 2 ≤ length out.old) }
    ensures end { result ≡ from + (length bytes.now - from) / 8 * 8 }
    ensures out { out.new ≡ put_at (at + from * 2) (digits_of
        (take ((length bytes.now - from) / 8 * 8) (drop from bytes.now))) out.old }
{
    let eights = (bytes.len() - from) >> 3;
    for k in 0..eights {
        let i = from + (k << 3);
        let end = i + 8;
        put_all(&bytes[i..end], out, at + i + i);
    }
    from + (eights << 3)
}

// Puts the digits of all bytes, in parts of 2, 4, 8 and 1: of a part whose length is a numeral the digits are computed
// at once.
fn put_parts(bytes: &[u8], out: &mut [u8], at: usize)
    requires { at + length bytes.now * 2 ≤ length out.old }
    ensures { out.new ≡ put_at at (digits_of bytes.now) out.old }
{
    let n = bytes.len();
    let two = put_part(n & 2 != 0, bytes, 0, 2, out, at);
    let four = put_part(n & 4 != 0, bytes, two, 4, out, at);
    let eight = put_eights(bytes, four, out, at);
    put_part(eight < n, bytes, eight, 1, out, at);
}

// Puts the digits of `bytes` into `out` from index `at` on. Where they do not fit, nothing is put. The room is tested
// by differences: where a caller has tested it, the compiler sees that.
pub fn put_digits(bytes: &[u8], out: &mut [u8], at: usize)
    ensures { out.new ≡ placed at (digits_of bytes.now) out.old }
{
    let size = out.len();
    let n = bytes.len();
    if size < at || size - at < n || size - at - n < n {
        return;
    }
    put_parts(bytes, out, at);
}

// Puts the eight digits of a number into `out` from index `at` on. Where they do not fit, nothing is put.
pub fn put_number(x: u32, out: &mut [u8], at: usize)
    ensures out_value { out.new ≡ placed at (hex_digits 8 x) out.old }
    ensures place_value { PlaceValue 8 x }
{
    let size = out.len();
    if size < at || size - at < 8 {
        return;
    }
    let bytes = buffer::bytes(x);
    put_all(&bytes, out, at);
}
