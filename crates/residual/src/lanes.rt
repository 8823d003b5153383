// The lanes of a case that is prepared, and a plan in work on them, with its potentials.

// The lanes of m sources and n terminals, in cells of stride 64: the unit cost of each, and its ceiling.
#[derive(Clone, Copy)]
pub struct Lanes<'a> {
    pub m: usize,
    pub n: usize,
    pub cost: &'a [u32; 2048],
    pub cap: &'a [u32; 2048],
}

// A plan in work: the drums on each lane, the sources that serve each terminal, a bit for each, and the potential of each node.
#[derive(Drop)]
pub struct Flow {
    pub x: [u32; 2048],
    pub serves: [u32; 64],
    pub pot: [u32; 96],
}
