// What damaged symbols do to the bytes of rows. It has no code.
#![tactic(auto)]
