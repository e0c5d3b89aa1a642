// A session's text: a line answered, line after line, however the input is cut into chunks. These are definitions, in
// specs/, and their theorem; the code that answers is in `gridconnect_session` and `gridconnect_session`.
#![tactic(auto)]
