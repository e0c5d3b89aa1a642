// Two pairs of a mask and a data byte put together, the later winning bit by bit (C-16). In specs/ stands what holds of
// such pairs, one for each byte of memory.
#![tactic(auto)]

ghost use Rattle.std.specs.Prelude.{◌≡◌};
ghost use Rattle.mask_combine.specs.Combining.{zero_outside, put_together, pair_in, mask_and_data, PairsAddUp};

// What the earlier and then the later do to a byte, as one. Each is a mask and then its data: the bits at 1 in the mask
// are taken from the data, the others kept. Data outside a mask play no part, and are zero in the result.
pub fn put_together(earlier: &[u8; 2], later: &[u8; 2], together: &mut [u8; 2])
    ensures together { together.new ≡ mask_and_data (put_together (zero_outside (pair_in earlier.now))
        (zero_outside (pair_in later.now))) }
    ensures adds_up { PairsAddUp }
{
    let [earlier_mask, earlier_data] = *earlier;
    let [later_mask, later_data] = *later;
    let kept = earlier_data & earlier_mask & !later_mask;
    *together = [earlier_mask | later_mask, kept | (later_data & later_mask)];
}
