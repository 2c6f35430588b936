// Mathematics of correcting a row: syndromes, the equations of a locator, its roots, the magnitudes at them, and that the corrected row is the only one.
// There is no code here: the definitions are in specs/, the theorems in proofs/.
#![tactic(auto)]
