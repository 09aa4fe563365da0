// Laws of what texts mean: proofs only.
#![tactic(auto)]
