// What holds over any list of calls of the ages of datagrams, of eight free places, and of one tool and its book,
// whatever others send. These are definitions, in specs/, and their theorems, which `rx_join::join` and the board's own
// calls promise.
#![tactic(auto)]
