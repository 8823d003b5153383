// Refusals 32 and 33 at their edges, and what stands before them: case A with other entries and slices of so many bytes. The same cases are computed
// from the definitions in crates/write_case/proofs/Examples.
use std::io;
use write_case::{Texts, write_case};

fn say(rt: &impl Print, texts: Texts) -> io::Result<()> {
    match texts {
        Texts::Written { tariff, production } => println!(rt; "written {tariff},{production}"),
        Texts::Refused { number, place } => println!(rt; "refused {number},{place}"),
    }
}

// Case A, whose splits are 1 to 3, with a table.
fn edge(
    rt: &impl Print,
    table: &[u64],
    tariff: &mut [u8],
    production: &mut [u8],
) -> io::Result<()> {
    let costs = [2i64, 6, 5, 3, 1, 4];
    let supplies = [3u64, 3, 1];
    let demands = [3u64, 2];
    let texts = write_case(3, 2, &costs, &supplies, &demands, table, tariff, production);
    say(rt, texts)
}

// Slices exactly as long as their texts, each one byte shorter, and the two exchanged.
fn room_edges(rt: &impl Print) -> io::Result<()> {
    let table = [99u64, 20, 24, 20];
    let mut t = [0u8; 27];
    let mut t_short = [0u8; 26];
    let mut p = [0u8; 16];
    let mut p_short = [0u8; 15];
    edge(rt, &table, &mut t, &mut p)?;
    edge(rt, &table, &mut t_short, &mut p)?;
    edge(rt, &table, &mut t, &mut p_short)?;
    edge(rt, &table, &mut p, &mut t)
}

// An entry of 9,999,999,999 at no split, and one more; 32 before 33, 9 before 32, 6 before 32.
pub fn run_edges(rt: &impl Print) -> io::Result<()> {
    let mut t = [0u8; 27];
    let mut p = [0u8; 24];
    let mut small = [0u8; 1];
    let mut least = [0u8; 1];
    edge(rt, &[9_999_999_999u64, 20, 24, 20], &mut t, &mut p)?;
    edge(rt, &[10_000_000_000u64, 20, 24, 20], &mut t, &mut p)?;
    room_edges(rt)?;
    edge(rt, &[10_000_000_000u64, 20, 24, 20], &mut small, &mut least)?;
    edge(
        rt,
        &[10_000_000_000u64, 20, 1_000_000_001, 20],
        &mut small,
        &mut least,
    )?;
    edge(rt, &[10_000_000_000u64, 20, 24], &mut small, &mut least)
}
