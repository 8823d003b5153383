// The way of drums over free lanes, which cost nothing: breadth first, with a bit for each node.
ghost use Rattle.std.specs.Prelude.{◌≡◌, ◌+◌, ◌*◌, ◌^◌, ◌<◌, length, get_or};
ghost use Rattle.residual.specs.inner.Bits.{bit};
ghost use Rattle.residual.specs.inner.LanesInUse.{Covers};
ghost use Rattle.reachability.specs.inner.Reachability.{Opens, Known, Room, Seen, Unserved, Dropped, Reaching, AtTerminal, Aiming, ReachAt};
ghost use Rattle.reachability.specs.inner.Reachability.{AheadAt, Shut, LookedBack, LookedAhead, ReachDone};

// The terminals that a source other than the start may serve; the terminals of these and the sources that are not reached yet, and the sources
// that are and are to be looked at, a bit for each; is the goal reached?
// Stays: `supplied` is read whether the goal is reached or not, so an enum in place of `found` would have it in both variants.
#[derive(Clone, Copy)]
pub struct Front {
    pub supplied: u64,
    pub terminals: u64,
    pub sources: u32,
    pub wait: u32,
    pub found: bool,
}

// The highest bit of a word.
fn highest(rest: u64) -> usize
    requires rest_nonzero { 0 < rest }
    requires rest_bound { rest < 2 ^ 64 }
    ensures { bit rest result ≡ 1 }
{
    63 - u64::leading_zeros(rest) as usize
}

// Has source i room to send to terminal j?
fn has_room(i: usize, j: usize, free: &[u32; 2048], x: &[u32; 2048]) -> bool
    requires { (i < 32) × (j < 64) }
    ensures { Room i j free.now x.now result }
{
    let k = i * 64 + j;
    x[k] < free[k]
}

// Does none of the sources that are not reached yet serve terminal j?
fn seen(j: usize, sources: u32, serves: &[u32; 64]) -> bool
    requires { j < 64 }
    ensures { Seen sources j serves.now result }
{
    serves[j] & sources == 0
}

// Does no source but the start serve terminal j?
fn unserved(start: usize, j: usize, serves: &[u32; 64]) -> bool
    requires { (start < 32) × (j < 64) }
    ensures { Unserved start j serves.now result }
{
    serves[j] & (u32::MAX - (1 << start)) == 0
}

// Takes source i from those that serve terminal j.
pub fn drop_source(i: usize, j: usize, serves: &mut [u32; 64])
    requires { (i < 32) × (j < 64) }
    ensures { Dropped i j serves.old serves.new }
{
    serves[j] = serves[j] & (u32::MAX - (1 << i));
}

// Reaches each source that sends to terminal j, until one has room to send to the goal.
fn look_back(
    m: usize,
    n: usize,
    start: usize,
    goal: usize,
    limit: u32,
    j: usize,
    free: &[u32; 2048],
    x: &[u32; 2048],
    front: Front,
    serves: &mut [u32; 64],
    prev: &mut [u32; 96],
) -> Front
    requires reach_at { ReachAt m n start j }
    requires covers { Covers m n x.now serves.old }
    requires at_terminal { AtTerminal m n free.now x.now start limit front.supplied front.terminals front.sources front.wait prev.old j }
    requires aiming { Aiming m n goal free.now x.now front.terminals front.sources }
    ensures looked_back { LookedBack m n j start goal limit free.now x.now front.supplied front.terminals
        front.sources front.wait result.supplied result.terminals result.sources result.wait prev.new result.found }
    ensures covers_2 { Covers m n x.now serves.new }
{
    let mut sources = front.sources;
    let mut wait = front.wait;
    let mut rest = serves[j] & sources;
    // Stays: no index is counted; the bits of a word are taken off one by one.
    while 0 < rest {
        let i = u32::trailing_zeros(rest) as usize;
        rest = rest & (rest - 1);
        if 0 < x[i * 64 + j] {
            prev[i] = 32 + j as u32;
            if has_room(i, goal, free, x) {
                prev[32 + goal] = i as u32;
                return Front {
                    supplied: front.supplied,
                    terminals: front.terminals,
                    sources,
                    wait,
                    found: true,
                };
            }
            sources = sources - (1 << i);
            wait = wait | (1 << i);
        } else {
            drop_source(i, j, serves);
        }
    }
    Front {
        supplied: front.supplied,
        terminals: front.terminals,
        sources,
        wait,
        found: false,
    }
}

// Reaches each terminal that source i has room to send to, the last first, and each source that sends there, until one has room to send to
// the goal. A terminal that leads to no other source is passed over; one that no source but the start serves any longer is of no use in this row.
fn look_ahead(
    m: usize,
    n: usize,
    start: usize,
    goal: usize,
    limit: u32,
    i: usize,
    ways: &[u64; 32],
    free: &[u32; 2048],
    x: &[u32; 2048],
    front: Front,
    serves: &mut [u32; 64],
    prev: &mut [u32; 96],
) -> Front
    requires ahead_at { AheadAt m n start i }
    requires i_value { bit front.sources i ≡ 0 }
    requires covers { Covers m n x.now serves.old }
    requires opens { Opens m n free.now ways.now }
    requires known { Known m n start goal x.now front.supplied }
    requires reaching { Reaching m n free.now x.now start limit front.supplied front.terminals front.sources front.wait prev.old }
    requires aiming { Aiming m n goal free.now x.now front.terminals front.sources }
    requires shut { Shut m n i free.now x.now front.terminals front.sources front.wait }
    ensures looked_ahead { LookedAhead m n start goal limit free.now x.now front.sources front.wait result.supplied
        result.terminals result.sources result.wait prev.new result.found }
    ensures covers_2 { Covers m n x.now serves.new }
{
    let mut now = front;
    let mut rest = ways[i] & (front.terminals - (1 << goal));
    // Stays: no index is counted; the bits of a word are taken off one by one.
    while 0 < rest {
        let j = highest(rest);
        rest = rest - (1 << j);
        if seen(j, now.sources, serves) {
            now.terminals = now.terminals - (1 << j);
            if unserved(start, j, serves) {
                now.supplied = now.supplied - (1 << j);
            }
        } else if has_room(i, j, free, x) {
            prev[32 + j] = i as u32;
            now.terminals = now.terminals - (1 << j);
            now = look_back(m, n, start, goal, limit, j, free, x, now, serves, prev);
            if now.found {
                return now;
            }
        }
    }
    now.found = false;
    now
}

// Looks for a way from source i to terminal j for limit drums at most, by terminals that a source after i may serve; the nodes before go into
// prev. The lane (i, j) is closed. Any way will do: drums go along one after another until there is none.
pub fn reach(
    m: usize,
    n: usize,
    i: usize,
    j: usize,
    limit: u32,
    ways: &[u64; 32],
    free: &[u32; 2048],
    x: &[u32; 2048],
    supplied: &mut u64,
    serves: &mut [u32; 64],
    prev: &mut [u32; 96],
) -> bool
    requires reach_at { ReachAt m n i j }
    requires limit_nonzero { 0 < limit }
    requires j_value { get_or free.now (i * 64 + j) 0 ≡ 0 }
    requires known { Known m n i j x.now supplied.old }
    requires covers { Covers m n x.now serves.old }
    requires opens { Opens m n free.now ways.now }
    requires prev_len { length prev.old ≡ 96 }
    ensures reach_done { ReachDone m n i j limit free.now x.now prev.new supplied.new result }
    ensures known_2 { Known m n i j x.now supplied.new }
    ensures covers_2 { Covers m n x.now serves.new }
{
    let mut front = Front {
        supplied: *supplied,
        terminals: *supplied,
        sources: u32::MAX - (1 << i),
        wait: 1 << i,
        found: false,
    };
    // Stays: no index is counted; the sources to be looked at are taken off a word, and others are added.
    while 0 < front.wait {
        let v = u32::trailing_zeros(front.wait) as usize;
        front.wait = front.wait & (front.wait - 1);
        front = look_ahead(m, n, i, j, limit, v, ways, free, x, front, serves, prev);
        *supplied = front.supplied;
        if front.found {
            return true;
        }
    }
    false
}
