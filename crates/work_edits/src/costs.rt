// Unit costs in cells: a cell holds the cost and 1,000,000.
ghost use Rattle.std.specs.Prelude.{◌≡◌, false, map, ◌+◌, ◌≤◌, pos, length, take, replicate};
ghost use Rattle.std.proofs.Math.Seq.{paste};
ghost use Rattle.transport.specs.Curve.{written};
ghost use Rattle.problem.specs.Range.{outside, raised_of, AllInside};
ghost use Rattle.work_store.specs.Store.{cost_in};

// The cell of a unit cost.
pub fn raised(cost: i64) -> u64
    requires { outside cost ≡ false }
    ensures { result ≡ raised_of cost }
{
    (cost + 1_000_000) as u64
}

// The unit cost of a cell.
fn cost_in(cell: u64) -> i64
    ensures { result ≡ cost_in cell }
{
    if 2_000_001 < cell {
        return 1_000_001;
    }
    cell as i64 - 1_000_000
}

// Writes the cells of unit costs into the store from cell `at` on.
pub fn raise_cells(source: &[i64], at: usize, store: &mut [u64])
    requires { (at + length source.now ≤ length store.old) × AllInside source.now }
    ensures { store.new ≡ paste store.old at (map raised_of source.now) (length (map raised_of source.now)) }
{
    for (k, cost) in source.iter().enumerate() {
        store[at + k] = raised(*cost);
    }
}

// Writes the unit costs of cells into a slice; later cells of it are left as they are.
pub fn lower_cells(source: &[u64], to: &mut [i64])
    requires { length source.now ≤ length to.old }
    ensures { to.new ≡ written (map cost_in source.now) to.old }
{
    for (k, cell) in source.iter().enumerate() {
        to[k] = cost_in(*cell);
    }
}

// The unit costs of at most 2,048 cells, and 0 after them.
pub fn costs_of(source: &[u64]) -> [i64; 2048]
    requires { length source.now ≤ 2048 }
    ensures { (length result ≡ 2048) × (take (length source.now) result ≡ map cost_in source.now) ×
        (result ≡ written (map cost_in source.now) (replicate 2048 (pos 0))) }
{
    let mut costs = [0i64; 2048];
    lower_cells(source, &mut costs);
    costs
}
