// Laws of lists, signed words and order, each said once: definitions and proofs only.
#![tactic(auto)]
