// Laws of a lent book: the header's sizes are enough, and what is written is held. In specs/.
#![tactic(auto)]
