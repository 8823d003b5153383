// The sources that serve each terminal under a plan.
ghost use Rattle.std.specs.Prelude.{◌≡◌, ℕ, ◌+◌, ◌<◌, ◌≤◌, length};
ghost use Rattle.residual.specs.inner.LanesInUse.{Covers};
ghost use Rattle.slackcheck.specs.inner.Serving.{Served, ServersTo};

// The bit of a source where it sends an amount, else 0.
fn served(amount: u32, bit: u32) -> u32
    ensures { Served amount bit result }
{
    if 0 < amount { bit } else { 0 }
}

// The terminals that source i serves: its bit in the word of each.
fn serve_row(n: usize, i: usize, x: &[u32; 2048], serves: &mut [u32; 64])
    requires { (i < 32) × (n ≤ 64) }
    ensures { (m : ℕ) → i < m → ServersTo m n x.now i serves.old →
        ServersTo m n x.now (i + 1) serves.new }
{
    let bit = 1u32 << i;
    for j in 0..n {
        serves[j] = serves[j] | served(x[i * 64 + j], bit);
    }
}

// The sources that serve each terminal, a bit for each. Any further bit will do: each lane in use has one, and a lane is looked
// at before drums are taken off it.
pub fn all_servers(m: usize, n: usize, x: &[u32; 2048], serves: &mut [u32; 64])
    requires { (m ≤ 32) × (n ≤ 64) × (length serves.old ≡ 64) }
    ensures { Covers m n x.now serves.new }
{
    *serves = [0u32; 64];
    for i in 0..m {
        serve_row(n, i, x, serves);
    }
}
