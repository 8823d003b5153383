// The look at each split of a stretch for a smaller total.
ghost use Rattle.std.specs.Prelude.{◌≡◌, ◌+◌, ◌-◌, ◌%◌, ◌≤◌, ◌<◌, length, get_or};
ghost use Rattle.incumbent.specs.inner.Scan.{better, scanned, scanned_part, ScanReady, LineReady};
ghost use Rattle.incumbent.specs.inner.LeastOfFour.{least_of_four, Lowest};

use crate::Incumbent;

// The incumbent after a look at one split: only a smaller total takes its place.
fn better_of(best: Incumbent, split: u64, freight: u64, entry: u64) -> Incumbent
    requires { freight + entry ≤ 10000000000000 }
    ensures { result ≡ better best split freight entry }
{
    let total = freight + entry;
    if total < best.total {
        return Incumbent {
            split,
            total,
            freight,
        };
    }
    best
}

// The incumbent after a look at each of the amount splits after y, one by one.
fn ones(
    table: &[u64],
    y: u64,
    amount: u64,
    freight: u64,
    gain: u64,
    loss: u64,
    best: Incumbent,
) -> Incumbent
    requires { LineReady table.now y amount freight gain loss }
    ensures { result ≡ scanned table.now y freight gain loss best amount }
{
    let mut held = best;
    let mut value = freight;
    for split in y + 1..y + amount + 1 {
        value = value + gain - loss;
        held = better_of(held, split, value, table[split as usize]);
    }
    held
}

// The same of a part of a stretch that starts at y with that freight: the amount splits after y + start.
fn part(
    table: &[u64],
    y: u64,
    start: u64,
    amount: u64,
    freight: u64,
    gain: u64,
    loss: u64,
    best: Incumbent,
) -> Incumbent
    requires { ScanReady table.now y (start + amount) freight gain loss }
    ensures { result ≡ scanned_part table.now y freight gain loss best start amount }
{
    let value = freight + gain * start - loss * start;
    ones(table, y + start, amount, value, gain, loss, best)
}

// The total of a split of that freight.
fn total_of(table: &[u64], split: u64, freight: u64) -> u64
    requires { (split < length table.now) × (freight + get_or table.now split 0 ≤ 10000000000000) }
    ensures { result ≡ freight + get_or table.now split 0 }
{
    let at = split as usize;
    freight + table[at]
}

// The least total of the four splits after y.
fn four(table: &[u64], y: u64, freight: u64, gain: u64, loss: u64) -> u64
    requires { LineReady table.now y 4 freight gain loss }
    ensures { result ≡ least_of_four table.now y freight gain loss }
{
    let v1 = freight + gain - loss;
    let v2 = v1 + gain - loss;
    let v3 = v2 + gain - loss;
    let v4 = v3 + gain - loss;
    let a = total_of(table, y + 1, v1);
    let b = total_of(table, y + 2, v2);
    let c = total_of(table, y + 3, v3);
    let d = total_of(table, y + 4, v4);
    a.min(b).min(c.min(d))
}

// Four splits of a stretch, those after its first start drums, and the least of their totals.
#[derive(Drop)]
pub struct Block {
    pub start: u64,
    pub total: u64,
}

// The first four of least total among the splits after y, as far as amount has fours. Where no total is below the incumbent's, it has that one's.
fn lowest(
    table: &[u64],
    y: u64,
    amount: u64,
    freight: u64,
    gain: u64,
    loss: u64,
    best: Incumbent,
) -> Block
    requires { ScanReady table.now y amount freight gain loss }
    ensures { Lowest table.now y freight gain loss best (amount - amount % 4) result }
{
    let mut held = Block {
        start: 0,
        total: best.total,
    };
    let mut value = freight;
    for block in 0..amount / 4 {
        let done = 4 * block;
        let low = four(table, y + done, value, gain, loss);
        if low < held.total {
            held = Block {
                start: done,
                total: low,
            };
        }
        value = value + 4 * gain - 4 * loss;
    }
    held
}

// The incumbent after a look at the splits after y, as far as amount has fours: of these only one is looked at split by split.
fn fours(
    table: &[u64],
    y: u64,
    amount: u64,
    freight: u64,
    gain: u64,
    loss: u64,
    best: Incumbent,
) -> Incumbent
    requires { ScanReady table.now y amount freight gain loss }
    ensures { result ≡ scanned table.now y freight gain loss best (amount - amount % 4) }
{
    let low = lowest(table, y, amount, freight, gain, loss, best);
    if best.total <= low.total {
        return best;
    }
    part(table, y, low.start, 4, freight, gain, loss, best)
}

// The incumbent after a look at each of the amount splits after y, on which the freight rises by gain and falls by loss a drum.
pub fn scan(
    table: &[u64],
    y: u64,
    amount: u64,
    freight: u64,
    gain: u64,
    loss: u64,
    best: Incumbent,
) -> Incumbent
    requires { ScanReady table.now y amount freight gain loss }
    ensures { result ≡ scanned table.now y freight gain loss best amount }
{
    let held = fours(table, y, amount, freight, gain, loss, best);
    let done = amount - amount % 4;
    part(table, y, done, amount - done, freight, gain, loss, held)
}
