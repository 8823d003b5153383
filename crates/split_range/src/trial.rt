// How step 1 is tried, and what is spoiled of the simplex's answer before the check. For trials of what stands behind the simplex.

// By the simplex or not; a lane of its plan that carries a drum more, and a node of its tree that is attached to plant 1.
#[derive(Drop)]
pub struct Trial {
    pub simplex: bool,
    pub lane: Option<usize>,
    pub node: Option<usize>,
}
