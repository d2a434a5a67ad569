// The archive form of a book: definitions and theorems, in specs/.
#![tactic(auto)]
