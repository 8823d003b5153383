// Cells for a case that files hold.
ghost use Rattle.std.specs.Prelude.{◌≡◌, pos, replicate};

// Cells for the amounts of 32 sources and 64 terminals.
pub fn lane_cells() -> [u64; 2048]
    ensures { result ≡ replicate 2048 0 }
{
    [0; 2048]
}

// Cells for their unit costs.
pub fn cost_cells() -> [i64; 2048]
    ensures { result ≡ replicate 2048 (pos 0) }
{
    [0; 2048]
}

// The ceiling 4,000 on every lane: no amount of an accepted case passes it.
pub fn lane_ceilings() -> [u64; 2048]
    ensures { result ≡ replicate 2048 4000 }
{
    [4_000; 2048]
}

// One cell more than the longest table has entries.
pub fn entry_cells() -> [u64; 4002]
    ensures { result ≡ replicate 4002 0 }
{
    [0; 4002]
}

// Cells for the stops of the longest table.
pub fn stop_cells() -> [u64; 4001]
    ensures { result ≡ replicate 4001 0 }
{
    [0; 4001]
}

// Cells for the freights at these stops.
pub fn freight_cells() -> [i64; 4001]
    ensures { result ≡ replicate 4001 (pos 0) }
{
    [0; 4001]
}
