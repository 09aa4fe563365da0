// From a case in plain numbers to what is handed over: laws only.
#![tactic(auto)]
