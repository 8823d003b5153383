// The form of the two files as the paper has it, and that the reader's automaton accepts exactly these files: definitions and theorems alone.
#![tactic(auto)]
