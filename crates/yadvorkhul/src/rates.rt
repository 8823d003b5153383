// The square-root rates for callers outside Rattle.
ghost use Rattle.std.specs.Prelude.{◌≡◌, length};
ghost use Rattle.ratetable.specs.Rate.{filled_of, cells_after};
ghost use Rattle.yadvorkhul.specs.Rated.{rate_number};

use ratetable::RateError;

// Writes the rates of the outputs 0 to `most` into the first cells of a slice, and answers 0. Nothing is written where `most` is above
// 4,000, and the answer is 4, or where the slice is too short, and it is 11: the planner's numbers for a supply and a slice.
#[unsafe(no_mangle)]
pub extern "C" fn yadvorkhul_rates(most: u64, to: &mut [u64]) -> u64
    ensures { (result ≡ rate_number (filled_of most (length to.old))) × (to.new ≡ cells_after most to.old) }
{
    match ratetable::fill(most, to) {
        Ok(()) => 0,
        Err(RateError::TooMuch) => 4,
        Err(RateError::TooShort) => 11,
    }
}
