// Reads the files, plans, and writes the answer.
ghost use Rattle.std.specs.Prelude.{◌≡◌, length};

use crate::sentence::explain;
use file_io::file::{file_room, first, read_file};
use file_io::message::say;
use plan_files::planned::plan_files;
use std::io;

// Room for the longest plan: the header, the production record and 2,048 lanes.
fn text_room() -> [u8; 174265]
    ensures { 174265 ≡ length result }
{
    [0; 174265]
}

// Plans two files' bytes, and writes the answer.
pub fn answer(
    rt: &HostRuntime,
    tariff: &[u8],
    production: &[u8],
    tariff_path: &[u8],
    production_path: &[u8],
) -> io::Result<()> {
    let err = rt.stderr();
    let mut text = text_room();
    let printed = plan_files(tariff, production, &mut text);
    let length = printed.length;
    if rt.write_all(first(&text, length)).is_err() {
        say(&err, b"Standard output could not be written.\n")?;
    }
    explain(
        &err,
        printed,
        tariff,
        production,
        tariff_path,
        production_path,
    )
}

// Plans the files of two paths.
pub fn plan_paths(rt: &HostRuntime, tariff_path: &[u8], production_path: &[u8]) -> io::Result<()> {
    let mut tariff = file_room();
    let mut production = file_room();
    let t = read_file(rt, tariff_path, &mut tariff);
    let p = read_file(rt, production_path, &mut production);
    answer(
        rt,
        first(&tariff, t),
        first(&production, p),
        tariff_path,
        production_path,
    )
}
