// The specimens of the papers, by computation; theorems only.
#![tactic(auto)]
