// What the trials found, a line for each count of the tally.
use std::io;
use std::io::Write;
use test_referee::bench::TALLY;
use test_referee::cells::cell;

// How many lines there are, how wide a name is, and the cell of the tally that each line shows.
const LINES: usize = 29;

const WIDTH: usize = 25;

const SHOWN: [u64; LINES] = [
    0, 1, 2, 3, 4, 5, 6, 7, 8, 9, 11, 23, 26, 27, 28, 29, 30, 31, 32, 33, 34, 35, 37, 38, 36, 39,
    40, 41, 42,
];

// Writes line k of the names and its count.
fn say(rt: &impl Print, names: &[u8], b: &[u64], k: usize) -> io::Result<()> {
    if k < LINES {
        let start = k * WIDTH;
        let end = start + WIDTH;
        if end <= names.len() {
            let mut out = io::writer(rt);
            out.write_all(&names[start..end])?;
            writeln!(out, "{}", cell(b, TALLY, SHOWN[k]))?;
        }
    }
    Ok(())
}

// Writes the tally from line `first` on.
fn say_from(rt: &impl Print, names: &[u8], b: &[u64], first: usize) -> io::Result<()> {
    for k in first..LINES {
        say(rt, names, b, k)?;
    }
    Ok(())
}

pub fn report(rt: &impl Print, b: &[u64], first: usize) -> io::Result<()> {
    say_from(
        rt,
        b"planned:                 refused 1:               refused 2:               refused 3:               \
          refused 4:               refused 5:               refused 6:               refused 7:               \
          refused 8:               refused 9:               refused 11:              refused 23:              \
          refused 26:              refused 27:              one split:               ties between splits:     \
          ties between plans:      plans listed:            no depots:               one terminal:            \
          a supply of 0:           a demand of 0:           balanced, with plans:    unbalanced, no plan:     \
          best between two stops:  cases:                   differences:             first difference: case   \
          first difference: check  ",
        b,
        first,
    )
}
