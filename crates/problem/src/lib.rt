// Problem (TP) as the planner is judged by it: a case, its plans and totals, the tests and their order, what is promised; and the mathematics
// that knows no code. No function.
#![tactic(auto)]
