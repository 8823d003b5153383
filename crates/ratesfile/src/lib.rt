// The production file of square-root rates, from the text of a number to the bytes of the file.
#![tactic(auto)]

ghost use Rattle.std.specs.Prelude.{◌≡◌};
ghost use Rattle.csv_print.specs.inner.Writing.{Written};
ghost use Rattle.ratesfile.specs.File.{rates_text, file_text};

use csv_print::column::put_column;
use numbers::read_short;
use ratetable::rates;

// Writes the rates of the outputs 0 to `most`, each a record of its own. Gives the length of the text, at most 24,006; 0, and nothing is
// written, where `most` is above 4,000.
fn put_rates(out: &mut [u8], most: u64) -> usize
    ensures { Written out.old out.new 0 result (rates_text most) 24006 }
{
    if 4_000 < most {
        return 0;
    }
    let count = most as usize + 1;
    let all = rates();
    put_column(out, &all[..count])
}

// Writes the production file for an output of plant 1 that a text names. Gives its length; 0, and nothing is written, where the text is no
// number from 0 to 4,000.
pub fn put_file(out: &mut [u8], text: &[u8]) -> usize
    ensures { Written out.old out.new 0 result (file_text text.now) 24006 }
{
    match read_short(text) {
        Some(most) => put_rates(out, most),
        None => 0,
    }
}
