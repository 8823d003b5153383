// The walk that takes a part of the drums back from a path.
ghost use Rattle.stretch.specs.inner.PathUndone.{Undoing, Undone};

use augment::send::carry;

// Takes amount back from the last count arcs of the path to goal: over each of them it goes the other way.
pub fn undo(prev: &[u32; 96], count: u32, goal: usize, amount: u32, x: &mut [u32; 2048])
    requires { Undoing prev.now amount count goal x.old }
    ensures { Undone prev.now amount count goal x.old x.new }
{
    let mut v = goal;
    for left in (0..count).rev() {
        let w = prev[v] as usize;
        carry(w, v, amount, x);
        v = w;
    }
}
