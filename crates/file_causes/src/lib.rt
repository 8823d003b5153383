// Why a tariff or a production file is refused, as far as its bytes tell: a sentence on standard error, and the line with the place marked. The
// words are those of the Python package (causes.py, refusals.py). It decides nothing: numbers and places are the proved readers'.
#![tactic(auto)]

pub mod amounts;
pub mod byte;
pub mod fields;
pub mod number;
pub mod sentence;
pub mod spot;
pub mod whole;
