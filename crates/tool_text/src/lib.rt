// Texts in a datagram: characters, and behind them the only zero byte.
#![tactic(auto)]

ghost use Rattle.std.specs.Prelude.{◌≡◌, drop};
ghost use Rattle.tool_read_spec.specs.Finding.{is_text};

// Whether the bytes from an index on are a text, or none.
pub fn is_text_from(datagram: &[u8], start: usize) -> bool
    ensures { result ≡ is_text (drop start datagram.now) }
{
    let Some(bytes) = datagram.get(start..) else {
        return true;
    };
    match bytes.iter().position(|b| *b == 0) {
        Some(zero) => zero + 1 == bytes.len(),
        None => bytes.is_empty(),
    }
}
