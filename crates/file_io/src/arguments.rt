// The arguments that a program was called with, as bytes.
ghost use Rattle.std.specs.Prelude.{◌≡◌, ◌↔◌, ◌≤◌, codes, length, IsTrue};

use std::env::{Env, FillError};

// Room for the longest path.
pub fn argument_room() -> [u8; 4096]
    ensures { 4096 ≡ length result }
{
    [0; 4096]
}

// Is there such an argument? The first, 0, is the program's name.
fn has_argument(rt: &impl Env, place: usize) -> bool {
    let mut room = argument_room();
    !matches!(rt.arg(place, &mut room), Err(FillError::NotPresent))
}

// How many arguments there are, with the program's name.
pub fn argument_count(rt: &impl Env) -> usize {
    for place in 0..usize::MAX {
        if !has_argument(rt, place) {
            return place;
        }
    }
    usize::MAX
}

// Puts an argument into the room, and gives its length; 0 where there is none, or it is longer than the room.
pub fn argument(rt: &impl Env, place: usize, room: &mut [u8]) -> usize
    ensures keeps_room { length room.new ≡ length room.old }
    ensures in_room { result ≤ length room.new }
{
    match rt.arg(place, room) {
        Ok(length) => length,
        Err(_) => 0,
    }
}

// Is an argument the word for help?
pub fn is_help(word: &[u8]) -> bool
    ensures { IsTrue result ↔ (word.now ≡ codes "--help") }
{
    word == b"--help".as_slice()
}
