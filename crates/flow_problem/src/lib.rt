// A flow problem in a network as it is judged: flows and their totals, the refusals and their order, section 5's case, what is promised; and the
// mathematics that knows no code. No function.
#![tactic(auto)]
