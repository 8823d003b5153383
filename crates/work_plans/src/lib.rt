// Planning a working case: what is promised of it, and that after any history it gives what the case entered afresh gives. No function.
#![tactic(auto)]
