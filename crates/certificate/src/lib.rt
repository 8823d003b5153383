// The certificate of an answer: the bound that prices give for every plan at a split, and what an accepted certificate shows. No function.
#![tactic(auto)]
