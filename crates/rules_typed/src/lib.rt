// Every call keeps the book within the program's types, so its archive is read back: specs/Theorems.antt.
#![tactic(auto)]
