// The rules of every call on a book; definitions only.
#![tactic(auto)]
