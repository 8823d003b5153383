// What callers outside Rattle get from the bytes of files: numbers and slices only. `yadvorkhul` exports these functions under names of its own.
#![tactic(auto)]

pub mod printing;
pub mod reading;
pub mod writing;
