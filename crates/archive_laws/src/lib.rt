// The archive's theorems, in specs/.
#![tactic(auto)]
