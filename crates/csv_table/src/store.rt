// Stores into lent cells, as far as there are cells.
ghost use Rattle.std.specs.Prelude.{◌≡◌, ℤ, map, ◌+◌, ◌≤◌, ◌<◌, ◌^◌, nat_abs, length, take, drop, set};
ghost use Rattle.std.proofs.lemmas.List.Edits.{sets};

use csv_print::magnitude;

// Stores a value, if there is a cell for it.
pub fn put<T: Copy>(cells: &mut [T], at: usize, value: T)
    ensures { cells.new ≡ set cells.old at value }
{
    if at < cells.len() {
        cells[at] = value;
    }
}

// What is stored of a field: the integer, or its size where no cell takes a minus.
pub trait FromField: Copy {
    ghost of: { ℤ → Self };

    fn from_field(v: i64) -> Self
        ensures { result ≡ of v };
}

impl FromField for i64 {
    ghost of = { λ v. v };

    fn from_field(v: i64) -> i64 {
        v
    }
}

impl FromField for u64 {
    ghost of = { nat_abs };

    fn from_field(v: i64) -> u64 {
        magnitude(v)
    }
}

// Stores the count fields from start on, from the cell at on.
pub fn copy_fields<T: FromField>(
    values: &[i64],
    start: usize,
    count: usize,
    cells: &mut [T],
    at: usize,
)
    requires count_in_bounds { start + count ≤ length values.now }
    requires count_bound { at + count < 2 ^ 64 }
    ensures { cells.new ≡ sets cells.old at (map T.of (take count (drop start values.now))) }
{
    for j in 0..count {
        put(cells, at + j, T::from_field(values[start + j]));
    }
}
