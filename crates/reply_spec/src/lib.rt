// The replies, by their fields and by their bytes. These are definitions, in specs/: the board's half makes its replies
// by them, and the tool's half reads them.
#![tactic(auto)]
