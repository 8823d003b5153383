// The lane that may come into the tree: a tight one with room into a part from a source outside it. In the tables a full lane has more than 2^27.
use super::tree::Part;

// A lane that comes in, by its nodes: the one in the part, and the other.
#[derive(Clone, Copy)]
pub struct Lane {
    pub inner: u32,
    pub outer: u32,
}

// The first terminal of the part to which source i has a tight lane; 64 where there is none.
// Stays: no index is counted; the bits of a word are taken off one by one.
// Stays: 64 and no Option: tried beside other forms, plans over many equal unit costs took 1.9 % more instructions than before all of them; as it
// stands 0.6 %.
fn enter(i: usize, cols: u64, columns: &[u32; 2048], pot: &[u32; 96]) -> u32 {
    let s = i % 32;
    let p = pot[s] % 1_073_741_824;
    let mut left = cols;
    while 0 < left {
        let j = u64::trailing_zeros(left) % 64;
        let k = j as usize;
        if columns[k * 32 + s] % 268_435_456 + p == pot[32 + k] {
            return j;
        }
        left = left & (left - 1);
    }
    64
}

// The first source outside the part that has a tight lane to the terminal of node w.
fn host(m: usize, w: usize, rows: u32, cost: &[u32; 2048], pot: &[u32; 96]) -> Option<u32> {
    let t = (w % 128 + 32) % 64;
    let q = pot[32 + t];
    for i in 0..32 {
        if i < m {
            if (rows >> i) % 2 == 0 {
                if cost[i * 64 + t] % 268_435_456 + pot[i] % 1_073_741_824 == q {
                    return Some(i as u32);
                }
            }
        }
    }
    None
}

// The lane that came in by a cut of the part, of which w is one end; where w is a source and has none, another.
pub fn came_in(
    m: usize,
    w: usize,
    part: Part,
    cost: &[u32; 2048],
    columns: &[u32; 2048],
    pot: &[u32; 96],
) -> Option<Lane> {
    if w < 32 {
        let j = enter(w, part.terminals, columns, pot);
        return Some(Lane {
            inner: 32 + j % 64,
            outer: w as u32,
        });
    }
    let i = host(m, w, part.sources, cost, pot)?;
    Some(Lane {
        inner: (w % 96) as u32,
        outer: i,
    })
}

// A tight lane into the part from one of the first 8 sources outside it.
pub fn tight_lane(m: usize, part: Part, columns: &[u32; 2048], pot: &[u32; 96]) -> Option<Lane> {
    let mut left = part.sources ^ u32::MAX;
    for _ in 0..8 {
        if left == 0 {
            return None;
        }
        let i = u32::trailing_zeros(left) % 32;
        if m <= i as usize {
            return None;
        }
        let j = enter(i as usize, part.terminals, columns, pot);
        if j < 64 {
            return Some(Lane {
                inner: 32 + j,
                outer: i,
            });
        }
        left = left & (left - 1);
    }
    None
}
