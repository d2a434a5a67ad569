// Laws only: a sound book in its cells, the steps of the rules on it, and when a step makes it full.
#![tactic(auto)]
