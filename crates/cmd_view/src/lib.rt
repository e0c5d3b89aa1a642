// A view of a datagram: the bytes as they were lent, and what is read of them once, the command and the address. Each
// function here is thin: it takes the view apart and leaves the reading to `cmd_fields`.
#![tactic(auto)]

ghost use Rattle.std.specs.Prelude.{◌≡◌, get_or, drop};
ghost use Rattle.cmd_fields.specs.Commands.{form_of, form_in, head_length, address_of, space_of, rest_of};

#[derive(Clone, Copy)]
struct View<'a> {
    pub datagram: &'a [u8],
    pub command: u8,
    pub address: u32,
}

impl<'a> View<'a> {
    // A byte that a short datagram lacks counts as 0 here. Decoding refuses such a datagram by its length before it
    // uses them.
    fn of(datagram: &'a [u8]) -> View<'a>
        ensures { (result.datagram ≡ datagram.entry)
            × (result.command ≡ get_or datagram.now 1 0) × (result.address ≡ address_of datagram.now) }
    {
        View {
            datagram,
            command: cmd_fields::command_in(datagram),
            address: cmd_fields::address_in(datagram),
        }
    }

    // The number of the space that a read, a write or a masked write names.
    fn space(self) -> u8
        ensures { result ≡ space_of (form_of self.entry.command) self.entry.datagram.now }
    {
        cmd_fields::space_in(self.datagram, self.command)
    }

    // The remaining bytes, a part of the datagram itself.
    fn remaining(self) -> &'a [u8]
        ensures { result.now ≡ drop (head_length (form_of self.entry.command)) self.entry.datagram.now }
    {
        cmd_fields::remaining_in(self.datagram, self.command)
    }
}

// The space and the address that a read, a write or a masked write names.
#[derive(Clone, Copy)]
pub struct Target {
    pub space: u8,
    pub address: u32,
}

// Both, read through the view.
pub fn target_of(datagram: &[u8]) -> Target
    ensures { (result.space ≡ space_of (form_in datagram.now) datagram.now)
        × (result.address ≡ address_of datagram.now) }
{
    let view = View::of(datagram);
    Target {
        space: view.space(),
        address: view.address,
    }
}

// The remaining bytes of a datagram: those behind its command, address and space byte.
#[tactic(auto, unfolding(cmd_fields::specs::Commands::rest_of))]
pub fn rest(datagram: &[u8]) -> &[u8]
    ensures { result.now ≡ rest_of datagram.now }
{
    View::of(datagram).remaining()
}
