// What writes do to every content of memory, and in which order they may come (C-16): definitions and their theorems.
#![tactic(auto)]
