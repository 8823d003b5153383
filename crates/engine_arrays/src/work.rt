// Copies between the lent slices, whose rows have n cells of 64 bits, and the working arrays, whose rows have 64 cells of 32 bits.
ghost use Rattle.std.specs.Prelude.{◌≡◌, ℕ, ◌+◌, ◌*◌, ◌≤◌, ◌<◌, false, map, length, get_or};
ghost use Rattle.problem.specs.Range.{outside, raised_of, AllInside};
ghost use Rattle.engine_arrays.specs.inner.Copy.{Narrow, Copied, RowsMoved, RowsKept, Supplied, Wanted};

// Copies a slice whose numbers fit 32 bits into working cells from index `at` on.
fn copy_into(source: &[u64], at: usize, to: &mut [u32])
    requires { (at + length source.now ≤ length to.old) × Narrow source.now }
    ensures { Copied source.now at to.old to.new }
{
    for (k, &x) in source.iter().enumerate() {
        to[at + k] = x as u32;
    }
}

// Copies working cells into a slice from index `at` on.
fn copy_out(cells: &[u32], at: usize, to: &mut [u64])
    requires { at + length cells.now ≤ length to.old }
    ensures { Copied cells.now at to.old to.new }
{
    for (k, &x) in cells.iter().enumerate() {
        to[at + k] = x as u64;
    }
}

// A unit cost raised by 1,000,000.
pub fn raised(cost: i64) -> u32
    requires { outside cost ≡ false }
    ensures { result ≡ raised_of cost }
{
    (cost + 1_000_000) as u32
}

// Writes raised costs into working cells from index `at` on.
fn raise_into(source: &[i64], at: usize, to: &mut [u32])
    requires { (at + length source.now ≤ length to.old) × AllInside source.now }
    ensures { Copied (map raised_of source.now) at to.old to.new }
{
    for (k, &x) in source.iter().enumerate() {
        to[at + k] = raised(x);
    }
}

// Writes the m rows of n unit costs, raised, into rows of 64; other cells are left as they are.
pub fn raise_rows(m: usize, n: usize, costs: &[i64], to: &mut [u32; 2048])
    requires { (m ≤ 32) × (n ≤ 64) × (length costs.now ≡ m * n) × (length to.old ≡ 2048) × AllInside costs.now }
    ensures { RowsMoved m n n 64 (map raised_of costs.now) to.new × (length to.new ≡ 2048) ×
        RowsKept m n 64 to.old to.new }
{
    let mut start: usize = 0;
    for i in 0..m {
        let end = start + n;
        raise_into(&costs[start..end], i * 64, to);
        start = end;
    }
}

// Copies m rows of n amounts out of rows of 64; later cells are left as they are.
pub fn gather_rows(m: usize, n: usize, cells: &[u32; 2048], to: &mut [u64])
    requires { (m ≤ 32) × (n ≤ 64) × (m * n ≤ length to.old) }
    ensures { RowsMoved m n 64 n cells.now to.new × (length to.new ≡ length to.old) ×
        ((k : ℕ) → m * n ≤ k → get_or to.new k 0 ≡ get_or to.old k 0) }
{
    let all = &cells[..];
    let mut at: usize = 0;
    for i in 0..m {
        let start = i * 64;
        let end = start + n;
        copy_out(&all[start..end], at, to);
        at = at + n;
    }
}

// Copies the m rows of n ceilings into rows of 64; other cells are left as they are.
pub fn copy_rows(m: usize, n: usize, ceilings: &[u64], to: &mut [u32; 2048])
    requires { (m ≤ 32) × (n ≤ 64) × (length ceilings.now ≡ m * n) × (length to.old ≡ 2048) × Narrow ceilings.now }
    ensures { RowsMoved m n n 64 ceilings.now to.new × (length to.new ≡ 2048) ×
        RowsKept m n 64 to.old to.new }
{
    let mut start: usize = 0;
    for i in 0..m {
        let end = start + n;
        copy_into(&ceilings[start..end], i * 64, to);
        start = end;
    }
}

// The supplies at the sources' nodes, and 0 after them.
pub fn supplied(supplies: &[u64]) -> [u32; 32]
    requires { (length supplies.now ≤ 32) × Narrow supplies.now }
    ensures { Supplied supplies.now result }
{
    let mut amounts = [0u32; 32];
    copy_into(supplies, 0, &mut amounts);
    amounts
}

// The demands at the terminals' nodes, 32 and up, and 0 at all others.
pub fn wanted(demands: &[u64]) -> [u32; 96]
    requires { (length demands.now ≤ 64) × Narrow demands.now }
    ensures { Wanted demands.now result }
{
    let mut wants = [0u32; 96];
    copy_into(demands, 32, &mut wants);
    wants
}
