// Laws of the rules of every call; theorems only.
#![tactic(auto)]
