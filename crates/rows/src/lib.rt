// Mathematics of rows of bytes: their values as polynomials, code rows, and what division by a generator leaves.
// There is no code here: the definitions are in specs/, the theorems in proofs/.
#![tactic(auto)]
