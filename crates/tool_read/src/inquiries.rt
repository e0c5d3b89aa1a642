// The replies about a board and its spaces, and the lock's.
ghost use Rattle.std.specs.Prelude.{◌≡◌, ◌≤◌, length};
ghost use Rattle.tool_read_spec.specs.Finding.{read_lowest, find_options, description_start, read_address, find_information, find_locked};

use tool_read_spec::{Information, LowestSpace, Options, ReplyIn, Span};

// The lowest space, with the name behind it.
fn lowest(datagram: &[u8]) -> Option<LowestSpace>
    requires { 6 ≤ length datagram.now }
    ensures { result ≡ read_lowest datagram.now }
{
    let space = *datagram.get(6)?;
    let end = datagram.len();
    Some(LowestSpace {
        space,
        name: tool_read_spec::text_from(7, end),
    })
}

// The options, with or without the lowest space, and a name only behind it.
#[tactic(auto, unfolding(tool_read_spec::specs::Finding::find_options))]
pub fn options(datagram: &[u8]) -> Option<ReplyIn>
    ensures { result ≡ find_options datagram.now }
{
    if datagram.len() < 6 || !tool_text::is_text_from(datagram, 7) {
        return None;
    }
    Some(ReplyIn::Options(Options {
        commands: tool_read_spec::two_bytes(datagram[2], datagram[3]),
        write_lengths: datagram[4],
        highest_space: datagram[5],
        lowest: lowest(datagram),
    }))
}

// Where the description of a space begins: behind the flags, or behind the lowest address that bit 1 of the flags says
// is there.
fn description_start(datagram: &[u8]) -> usize
    requires { 8 ≤ length datagram.now }
    ensures { (result ≡ description_start datagram.now) × (8 ≤ result) }
{
    if datagram[7] / 2 % 2 == 1 { 12 } else { 8 }
}

// The lowest address, where it is given.
fn lowest_address(datagram: &[u8]) -> Option<u32>
    requires { (8 ≤ length datagram.now) × (description_start datagram.now ≤ length datagram.now) }
    ensures { result ≡ read_address datagram.now }
{
    if description_start(datagram) != 12 {
        return None;
    }
    Some(buffer::number(datagram[8], datagram[9], datagram[10], datagram[11]))
}

// The information on a space. Whether it is present is a field of what is found, and chooses nothing here.
#[tactic(auto, unfolding(tool_read_spec::specs::Finding::find_information))]
pub fn information(datagram: &[u8], present: bool) -> Option<ReplyIn>
    ensures { result ≡ find_information present datagram.now }
{
    let end = datagram.len();
    if end < 8 {
        return None;
    }
    let start = description_start(datagram);
    if end < start || !tool_text::is_text_from(datagram, start) {
        return None;
    }
    Some(ReplyIn::Information(Information {
        present,
        space: datagram[2],
        highest_address: buffer::number(datagram[3], datagram[4], datagram[5], datagram[6]),
        flags: datagram[7],
        lowest_address: lowest_address(datagram),
        description: tool_read_spec::text_from(start, end),
    }))
}

// Who holds the lock: an ID of six bytes.
#[tactic(auto, unfolding(tool_read_spec::specs::Finding::find_locked))]
pub fn locked(datagram: &[u8]) -> Option<ReplyIn>
    ensures { result ≡ find_locked datagram.now }
{
    if datagram.len() != 8 {
        return None;
    }
    Some(ReplyIn::Locked(Span {
        start: 2,
        length: 6,
    }))
}
