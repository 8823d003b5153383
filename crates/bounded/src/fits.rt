// Whether each source and each terminal by itself has lanes enough: where one has not, there is no plan, and no simplex is run.
ghost use Rattle.std.specs.Prelude.{◌≤◌};

// How much the source whose row begins at k can send in all; what each terminal can get grows by what it can get from this source.
fn add_row(
    k: usize,
    n: usize,
    amount: u32,
    cap: &[u32; 2048],
    demand: &[u32; 96],
    room: &mut [u32; 64],
) -> u32
    requires { (k ≤ 1984) × (n ≤ 64) }
{
    let mut all: u32 = 0;
    for j in 0..n {
        let ceiling = cap[k + j];
        all = all.wrapping_add(u32::min(ceiling, demand[32 + j]));
        room[j] = room[j].wrapping_add(u32::min(ceiling, amount));
    }
    all
}

// Can each source send its amount?
fn sources_fit(
    m: usize,
    n: usize,
    cap: &[u32; 2048],
    amounts: &[u32; 32],
    demand: &[u32; 96],
    room: &mut [u32; 64],
) -> bool
    requires { (m ≤ 32) × (n ≤ 64) }
{
    for i in 0..m {
        if add_row(i * 64, n, amounts[i], cap, demand, room) < amounts[i] {
            return false;
        }
    }
    true
}

// Can each terminal get its demand?
fn terminals_fit(n: usize, demand: &[u32; 96], room: &[u32; 64]) -> bool
    requires { n ≤ 64 }
{
    for j in 0..n {
        if room[j] < demand[32 + j] {
            return false;
        }
    }
    true
}

// Can each of them?
pub fn fits(m: usize, n: usize, cap: &[u32; 2048], amounts: &[u32; 32], demand: &[u32; 96]) -> bool
    requires { (m ≤ 32) × (n ≤ 64) }
{
    let mut room = [0u32; 64];
    if sources_fit(m, n, cap, amounts, demand, &mut room) {
        return terminals_fit(n, demand, &room);
    }
    false
}
