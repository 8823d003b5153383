// Numbers that a text names.
#![tactic(auto)]

ghost use Rattle.std.specs.Prelude.{◌≡◌};
ghost use Rattle.numbers.specs.Short.{short_of};

// Reads a number of one to four digits; zeros may stand in front. Nothing, where the text is no such number.
pub fn read_short(text: &[u8]) -> Option<u64>
    ensures { result ≡ short_of text.now }
{
    if text.is_empty() {
        return None;
    }
    if 4 < text.len() {
        return None;
    }
    let mut value: u64 = 0;
    for &byte in text {
        if byte < 48 {
            return None;
        }
        if 57 < byte {
            return None;
        }
        value = 10 * value + u64::from(byte - 48);
    }
    Some(value)
}
