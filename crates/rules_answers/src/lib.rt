// What the rules of every call answer and refuse: definitions and laws, in specs/.
#![tactic(auto)]
