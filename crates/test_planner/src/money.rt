// Cells as the signed numbers that the planner takes.
ghost use Rattle.std.specs.Prelude.{◌≤◌};

use test_referee::bench::ZERO;

// The signed number of a cell up to 10^12.
fn lowered(cell: u64) -> i64
    requires { cell ≤ 1000000000000 }
{
    cell as i64 - ZERO as i64
}

// The signed number of a cell; past 10^12 the largest.
fn signed(cell: u64) -> i64 {
    if 1_000_000_000_000 < cell {
        return i64::MAX;
    }
    lowered(cell)
}

// Writes the signed numbers of cells, as far as there is room.
pub fn spell(cells: &[u64], numbers: &mut [i64]) {
    for (number, cell) in numbers.iter_mut().zip(cells) {
        *number = signed(*cell);
    }
}
