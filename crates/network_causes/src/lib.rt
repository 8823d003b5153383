// Why a network file is refused, as far as its lines tell: a sentence on standard error. The words are those of the Python package (dimacs.py).
// It decides nothing: numbers and places are the proved readers'.
#![tactic(auto)]

pub mod form;
pub mod limits;
pub mod words;
