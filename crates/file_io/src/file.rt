// Reads a file into room that is lent.
ghost use Rattle.std.specs.Prelude.{◌≡◌, is_none, length, min, replicate, take, unwrap_or};
ghost use Rattle.file_io.specs.inner.Reading.{Told};

use std::fs::File;
use std::io::Read;
use std::rt::Files;
use std::str;

// Room for the longest file that is read, and one byte more.
pub fn file_room() -> [u8; 65537]
    ensures value { 65537 ≡ length result }
    ensures value_2 { result ≡ replicate 65537 0 }
{
    [0; 65537]
}

// The first n bytes; all where there are no more.
pub fn first(s: &[u8], n: usize) -> &[u8]
    ensures { result.now ≡ take n s.now }
{
    if s.len() < n {
        return s;
    }
    &s[0..n]
}

// How many bytes of the room a file takes up to now, and whether that is all.
#[derive(Drop)]
struct Taken {
    pub at: usize,
    pub ends: bool,
}

// What a read at an offset of the room tells, by how many bytes it brought; none where it failed.
#[tactic(auto, unfolding(crate::specs::inner::Reading::taken_after, crate::specs::inner::Reading::ends_after))]
fn after_read(got: Option<usize>, at: usize, room: &[u8]) -> Taken
    ensures { Told (is_none got) (min (unwrap_or got 0) (length room.now)) at (length room.now) result.at result.ends }
{
    let size = room.len();
    let Some(count) = got else {
        return Taken {
            at: size,
            ends: true,
        };
    };
    let more = count.min(size);
    if more == 0 {
        return Taken { at, ends: true };
    }
    if size <= at {
        return Taken {
            at: size,
            ends: true,
        };
    }
    if size - at <= more {
        return Taken {
            at: size,
            ends: true,
        };
    }
    Taken {
        at: at + more,
        ends: false,
    }
}

// Stays: no index is counted; each read tells how many bytes it brought.
// Reads to the end of the file or of the room, and gives how many bytes there are; the whole room where a read fails.
fn read_all(file: &mut impl Read, room: &mut [u8]) -> usize
    ensures { length room.new ≡ length room.old }
{
    let size = room.len();
    let mut at: usize = 0;
    while at < size {
        let got = file.read(&mut room[at..]).ok();
        let taken = after_read(got, at, room);
        if taken.ends {
            return taken.at;
        }
        at = taken.at;
    }
    at
}

// Reads a file, and gives how many bytes of the room it takes: the whole room where it is not opened, not read or too long. A path that is
// not text in UTF-8 opens no file.
pub fn read_file(rt: &impl Files, path: &[u8], room: &mut [u8]) -> usize
    ensures { length room.new ≡ length room.old }
{
    let Ok(path) = str::from_utf8(path) else {
        return room.len();
    };
    match File::open(rt, path) {
        Ok(mut file) => read_all(&mut file, room),
        Err(_) => room.len(),
    }
}
