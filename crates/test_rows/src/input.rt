// The input of a program that runs a table.
ghost use Rattle.std.specs.Prelude.{◌≤◌, length};

use std::io::Read;

// Reads until `to` is full, the input ends or a read fails, and gives how many bytes it put at the start of `to`.
pub fn read_full(from: &mut impl Read, to: &mut [u8]) -> usize
    ensures { result ≤ length to.new }
{
    let mut done: usize = 0;
    // Stays: no index is counted; each read says how many bytes it gave, and one that gives none ends the loop.
    while done < to.len() {
        let n = from.read(&mut to[done..]).unwrap_or(0);
        if n == 0 {
            return done;
        }
        done += n;
    }
    done
}
