// How blocks and logs stand in plain numbers is in specs/, and why nothing is lost by it in proofs/. The code is the sizes.
#![tactic(auto)]

// Six atoms of five numbers and the head's four terms.
pub const BLOCK_NUMBERS: usize = 34;

// A fact's numbers: its relation and four values.
pub const FACT_NUMBERS: usize = 5;
