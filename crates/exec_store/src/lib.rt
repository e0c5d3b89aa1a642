// What a masked write stores: bytes of which a mask chooses the bits.
#![tactic(auto)]

ghost use Rattle.std.specs.Prelude.{◌≡◌};
ghost use Rattle.cmd_fields.specs.Commands.{pair, pairs_of};
ghost use Rattle.exec_store.specs.Storing.{mask_byte, store_masked};

// A byte with the bits of the mask taken from the value.
fn mask_byte(old: u8, mask: u8, value: u8) -> u8
    ensures { result ≡ mask_byte old (pair mask value) }
{
    (old & !mask) | (value & mask)
}

// Stores pairs of a mask and a value from an index of memory on. Where they do not fit, nothing is stored.
pub fn put_masked(memory: &mut [u8], index: usize, pairs: &[u8])
    ensures { memory.new ≡ store_masked (pairs_of pairs.now) index memory.old }
{
    if index <= memory.len() && pairs.len() / 2 <= memory.len() - index {
        for (i, pair) in pairs.chunks_exact(2).enumerate() {
            memory[index + i] = mask_byte(memory[index + i], pair[0], pair[1]);
        }
    }
}
