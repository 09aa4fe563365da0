// What sheets and facts mean stands in specs/, and its laws in proofs/. The code is the limits that both forms of facts share.
#![tactic(auto)]

use sheet_format::CONSTANT_END;

// At most so many facts are given, of five words each.
pub const MOST_FACTS: usize = 256;

// The words of a fact: a relation and four values.
pub const FACT_WORDS: usize = 5;

// Values made up for a case follow the constants: there are so many, and all values lie below this.
pub const MADE_UP_VALUES: i32 = 1000;

pub const VALUE_END: i32 = CONSTANT_END + MADE_UP_VALUES;
