// What a datagram may change besides memory, in one lent block: the lock memory. How its fields lie in the bytes is
// said by specs/Registers.antt alone.
#![tactic(auto)]

ghost use Rattle.std.specs.Prelude.{◌≡◌};
ghost use Rattle.buffer.specs.Buffer.{put_at};
ghost use Rattle.exec_registers.specs.Registers.{registers_in, registers_at_start, with_lock, BytesTold};

pub type Registers = [u8; 6];

// The registers at the start: nobody holds the lock.
#[tactic(auto, unfolding(crate::specs::Registers::registers_in))]
pub fn new_registers() -> Registers
    ensures { registers_in result ≡ registers_at_start }
{
    [0u8; 6]
}

// The lock memory.
#[tactic(auto, unfolding(crate::specs::Registers::registers_in))]
pub fn lock_in(registers: &Registers) -> [u8; 6]
    ensures { result ≡ (registers_in registers.now).lock }
{
    let [a, b, c, d, e, f] = *registers;
    [a, b, c, d, e, f]
}

// Puts another lock memory; every other field keeps its bytes.
pub fn put_lock(registers: &mut Registers, lock: [u8; 6])
    ensures fields { registers_in registers.new ≡ with_lock lock (registers_in registers.old) }
    ensures bytes { registers.new ≡ put_at 0 lock registers.old }
    ensures told { BytesTold }
{
    buffer::put(registers, 0, &lock);
}
