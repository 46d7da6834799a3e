// What is claimed of the calls' answers, beyond what each call's contract says: demand 3, and
// document 01's worked cases. There is no code here; `specs/` has the claims and `proofs/` their proofs.
#![tactic(auto)]
