// Facts about every number below a bound and about every entry of a table, each by one test that the checker computes.
// There is no code here: the lemmas are in proofs/.
#![tactic(auto)]
