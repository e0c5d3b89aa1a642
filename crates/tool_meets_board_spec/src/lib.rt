// Where the tool's half and the board's meet: definitions and their theorem.
#![tactic(auto)]
