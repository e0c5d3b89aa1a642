// The masked writes that take an old image of memory to a new one, and what they do (C-16): definitions and their
// theorem. The code is in `mask_diff`.
#![tactic(auto)]
