// The freight curve at every split, from its stops, and the two passes over it. Freights stand as heights above -128,000,000,000.
ghost use Rattle.std.specs.Prelude.{◌≡◌, ◌≤◌, ◌<◌, cond, leb, length};
ghost use Rattle.std.proofs.Math.IntN.{sub_ℕ};
ghost use Rattle.transport.specs.Curve.{written};
ghost use Rattle.bounds_problem.specs.inner.Heights.{height, Moderate, point_at, Stretch, StretchDrawn, Drawing, CurveDrawn, Summed};
ghost use Rattle.bounds_problem.specs.inner.Heights.{least_sum, marks_by, found, first_bad};

// How far a freight stands above -128,000,000,000.
fn height_of(freight: i64) -> u64
    requires { Moderate freight }
    ensures { result ≡ height freight }
{
    (freight + 128_000_000_000) as u64
}

// The number at a height.
pub fn signed(v: u64) -> i64
    requires { v ≤ 1000000000000 }
    ensures { result ≡ sub_ℕ v 128000000000 }
{
    v as i64 - 128_000_000_000
}

// The height at y on the line from a at p to b at q.
pub fn between(p: u64, q: u64, a: u64, b: u64, y: u64) -> u64
    requires { (p < q) × (p ≤ y) × (y ≤ q) × (q ≤ 4000) × (a ≤ 256000000000) × (b ≤ 256000000000) }
    ensures { result ≡ point_at p q a b y }
{
    ((q - y) * a + (y - p) * b) / (q - p)
}

// Draws the line from a at p to b at q, after p; the cell of split lo is the first.
fn draw_stretch(lo: u64, p: u64, q: u64, a: u64, b: u64, to: &mut [u64])
    requires { Stretch lo p q a b (length to.old) }
    ensures { StretchDrawn lo p q a b to.old to.new }
{
    for y in p + 1..q + 1 {
        to[(y - lo) as usize] = between(p, q, a, b, y);
    }
}

// Draws the curve from its stops.
pub fn draw(splits: &[u64], freights: &[i64], count: usize, to: &mut [u64])
    requires { Drawing splits.now freights.now count × (4001 ≤ length to.old) }
    ensures { CurveDrawn splits.now freights.now count to.old to.new }
{
    let lo = splits[0];
    let mut last = lo;
    let mut level = height_of(freights[0]);
    to[0] = level;
    for k in 1..count {
        let next = splits[k];
        let rise = height_of(freights[k]);
        draw_stretch(lo, last, next, level, rise, to);
        last = next;
        level = rise;
    }
}

// The least of the curve with the table on top.
pub fn least_sum(curve: &[u64], table: &[u64]) -> u64
    requires { Summed curve.now table.now }
    ensures { result ≡ least_sum curve.now table.now }
{
    let mut least = curve[0] + table[0];
    for k in 1..table.len() {
        least = least.min(curve[k] + table[k]);
    }
    least
}

// 1 where a sum is at most the bound.
pub fn mark_of(sum: u64, bound: u64) -> u64
    ensures { result ≡ cond (leb sum bound) 1 0 }
{
    u64::from(sum <= bound)
}

// Marks where the curve with the table on top is at most the bound.
pub fn mark_all(curve: &[u64], table: &[u64], bound: u64, to: &mut [u64])
    requires { Summed curve.now table.now × (length table.now ≤ length to.old) }
    ensures { to.new ≡ written (marks_by curve.now table.now bound) to.old }
{
    for (k, &entry) in table.iter().enumerate() {
        to[k] = mark_of(curve[k] + entry, bound);
    }
}

// The first index at which the high entry is below the low one or above 1,000,000,000.
pub fn first_bad(low: &[u64], high: &[u64]) -> Option<usize>
    requires { length low.now ≤ length high.now }
    ensures { found result ≡ first_bad low.now high.now }
{
    for (k, &entry) in low.iter().enumerate() {
        if high[k] < entry || 1_000_000_000 < high[k] {
            return Some(k);
        }
    }
    None
}
