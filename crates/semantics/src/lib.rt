// The rules of running, and demand 3 over them. There is no code here: specs/ has the rules and the claim, proofs/ its proof.
#![tactic(auto)]
