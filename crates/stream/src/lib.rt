// Closed forms of all that is sent and received since the start, and their laws. It has no code.
#![tactic(auto)]
