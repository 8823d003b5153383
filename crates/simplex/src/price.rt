// The cheapest lane of a source, by keys of the terminals.
ghost use Rattle.std.specs.Prelude.{◌<◌, ◌≤◌};

// Above every key of a terminal that is open.
pub const SHUT: u32 = 2_013_265_920;

// Of two numbers below 2^31 the smaller. With the top bit turned over they are compared with sign, which the machine does four at a time.
fn lesser(a: u32, b: u32) -> u32 {
    if (a ^ 2_147_483_648) < (b ^ 2_147_483_648) {
        a
    } else {
        b
    }
}

// A lane's price: 64 times its unit cost, and the key of its terminal.
fn priced(cost: u32, key: u32) -> u32 {
    (cost << 6).wrapping_add(key)
}

// The lesser price of two lanes of the source whose row begins at k: to terminal j and to terminal j + 16.
fn lesser_of_two(k: usize, j: usize, cost: &[u32; 2048], key: &[u32; 64]) -> u32
    requires { (k ≤ 1984) × (j < 48) }
{
    lesser(
        priced(cost[k + j], key[j]),
        priced(cost[k + j + 16], key[j + 16]),
    )
}

// The least price over the terminals below 32 of the source whose row begins at k.
fn least_narrow(k: usize, cost: &[u32; 2048], key: &[u32; 64]) -> u32
    requires { k ≤ 1984 }
{
    let mut l: u32 = 2_147_483_647;
    for j in 0..16 {
        l = lesser(lesser_of_two(k, j, cost, key), l);
    }
    l
}

// The least price of source i, where there are n terminals; a key has its terminal in the low six bits, and so has this.
pub fn least(i: u32, n: usize, cost: &[u32; 2048], key: &[u32; 64]) -> u32 {
    let k = ((i % 32) * 64) as usize;
    if n <= 32 {
        return least_narrow(k, cost, key);
    }
    let mut l: u32 = 2_147_483_647;
    for j in 0..16 {
        let a = lesser_of_two(k, j, cost, key);
        let b = lesser_of_two(k, j + 32, cost, key);
        l = lesser(lesser(a, b), l);
    }
    l
}
