// What the three verdicts mean is in specs/, and that every accepted sheet has exactly one of them in proofs/. There is no code.
#![tactic(auto)]
