// Mathematics over any field in which a + a = 0: polynomials, their roots, and sums of powers at distinct places.
// There is no code here: the definitions are in specs/, the theorems in proofs/.
#![tactic(auto)]
