// The ledger of every list of calls, and the theorem of demand 3; definitions and theorems only.
#![tactic(auto)]
