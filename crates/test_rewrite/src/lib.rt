// Pairs of files written anew, for trials: a tariff and a production file.
#![tactic(auto)]

use test_draws::slices::first;
use write_case::Texts;
use write_case::rewrite::rewrite_files;

// Two texts of a case.
#[derive(Clone, Copy, PartialEq, Eq, Debug)]
pub struct Files<'a> {
    pub tariff: &'a [u8],
    pub production: &'a [u8],
}

// The two files written anew into lent bytes, unless they are refused.
pub fn rewritten<'a>(
    files: Files<'_>,
    tariff: &'a mut [u8],
    production: &'a mut [u8],
) -> Option<Files<'a>> {
    match rewrite_files(files.tariff, files.production, tariff, production) {
        Texts::Written {
            tariff: a,
            production: b,
        } => Some(Files {
            tariff: first(tariff, a),
            production: first(production, b),
        }),
        Texts::Refused { .. } => None,
    }
}

// Whether two files are written again as they are, into lent bytes.
pub fn stays(files: Files<'_>, tariff: &mut [u8], production: &mut [u8]) -> bool {
    rewritten(files, tariff, production) == Some(files)
}
