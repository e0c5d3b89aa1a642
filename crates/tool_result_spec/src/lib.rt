// What the tool's writer and readers give, as numbers for a caller in C: the structs, and in specs/ the number of each
// case and that no blank stands for something. A number that a case does not name is 0, and what may be missing says
// whether it is given. The code is in `tool_result`.
//
// These structs are the C interface, and stay as C has them: a number of a refusal, a kind or a form, and a flag beside
// its value, are here what an enum or an Option is to the readers.
#![tactic(auto)]

// A command that was written: the number of W1 or W2 and no length, or 0 and the command's length.
#[repr(C)]
#[derive(Drop)]
pub struct Composed {
    pub refusal: u32,
    pub length: usize,
}

// Received OK: 3 for W3, or 0 and the fields.
#[repr(C)]
#[derive(Clone, Copy, Default)]
pub struct Acknowledged {
    pub refusal: u32,
    pub pending: bool,
    pub timeout: u8,
}

// Bytes in what was lent, as C has an Option of them: whether there are such bytes, where they start, and how many they are.
#[repr(C)]
#[derive(Clone, Copy, Default)]
pub struct ByteRange {
    pub given: bool,
    pub start: usize,
    pub length: usize,
}

// Rejected: 3 for W3, or 0, the code and further bytes.
#[repr(C)]
#[derive(Clone, Copy, Default)]
pub struct RejectionFields {
    pub refusal: u32,
    pub code: u16,
    pub further: ByteRange,
}

// The options. C has a flag for the lowest space, since it may be missing.
#[repr(C)]
#[derive(Clone, Copy, Default)]
pub struct OptionsFields {
    pub commands: u16,
    pub write_lengths: u8,
    pub highest_space: u8,
    pub has_lowest_space: bool,
    pub lowest_space: u8,
}

// The information on a space. C has a flag for the lowest address, since it may be missing.
#[repr(C)]
#[derive(Clone, Copy, Default)]
pub struct InformationFields {
    pub highest_address: u32,
    pub lowest_address: u32,
    pub flags: u8,
    pub present: bool,
    pub has_lowest_address: bool,
}

// A reply. The kinds: 0 none, which is W3, 1 the bytes read, 2 a read that failed, 3 a write that is done, 4 a write
// that failed, 5 the options, 6 the information on a space, 7 who holds the lock. `bytes` is where the data, the text
// or the lock's ID stand. `form` says how the space is named: 0 by byte 6, and 1, 2, 3 by the low two bits of the
// command.
#[repr(C)]
#[derive(Clone, Copy, Default)]
pub struct ReplyFields {
    pub kind: u32,
    pub address: u32,
    pub code: u16,
    pub space: u8,
    pub form: u8,
    pub options: OptionsFields,
    pub information: InformationFields,
    pub bytes: ByteRange,
}
