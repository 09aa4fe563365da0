// What it means that a question is settled by its views' rows is in specs/, and what searches say of it in proofs/. There is no code.
#![tactic(auto)]
