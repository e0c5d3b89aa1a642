// What a request does, and a datagram handled whole. These are definitions, in specs/, and their theorems; the code
// that meets them is in `exec_datagram`.
#![tactic(auto)]

// What stays the same over a session: the description, which is the board's alias, one Write Lengths byte that is sent
// as it is given, and the table of spaces; and flash.
#[derive(Clone, Copy)]
pub struct Board<'a> {
    pub alias: u16,
    pub write_lengths: u8,
    pub spaces: &'a [u8],
    pub flash: &'a [u8],
}
