// What holds of the C library whole: every list of its calls on a lent book, and what each function leaves in lent memory. In specs/.
#![tactic(auto)]
