// What stands after a field.
ghost use Rattle.std.specs.Prelude.{◌≡◌, ◌≤◌, length};
ghost use Rattle.csv_form.specs.inner.Reader.{cost_at, last_at, demand_at, comma_at, record_at, after_at, at_last};

use crate::{Kind, Misfit};

#[derive(Clone, Copy, Debug, PartialEq, Eq)]
pub enum After {
    // A further field of the record begins at next.
    Field { next: usize },
    // A further record begins at next.
    Record { next: usize },
    // The record and the file end.
    End,
    // The record ends with an empty field, and the file ends.
    Empty,
}

// After the CR of the demands: LF, and the file ends.
fn after_demands(s: &[u8], at: usize) -> Result<After, Misfit>
    requires { at ≤ length s.now }
    ensures { result ≡ last_at s.now at }
{
    if s.len() <= at {
        return Err(Misfit { place: at });
    }
    if s[at] != b'\n' {
        return Err(Misfit { place: at });
    }
    let next = at + 1;
    if next < s.len() {
        return Err(Misfit { place: next });
    }
    Ok(After::Empty)
}

// After a comma in a record of the tariff that may be the demands': a field, or the empty last field of the demands.
fn after_demand(s: &[u8], at: usize) -> Result<After, Misfit>
    requires { at ≤ length s.now }
    ensures { result ≡ demand_at s.now at }
{
    if s.len() <= at {
        return Ok(After::Empty);
    }
    if s[at] == b'\r' {
        return after_demands(s, at + 1);
    }
    Ok(After::Field { next: at })
}

// After a comma, in a record that is known to be a source's or not.
fn after_comma(kind: Kind, source: bool, s: &[u8], at: usize) -> Result<After, Misfit>
    requires { at ≤ length s.now }
    ensures { result ≡ comma_at kind source s.now at }
{
    match kind {
        Kind::Production => Ok(After::Field { next: at }),
        Kind::Tariff => {
            if source {
                Ok(After::Field { next: at })
            } else {
                after_demand(s, at)
            }
        }
    }
}

// After the CR of a record: LF, and a further record, or, in the production file, the end.
fn after_record(kind: Kind, s: &[u8], at: usize) -> Result<After, Misfit>
    requires { at ≤ length s.now }
    ensures { result ≡ record_at kind s.now at }
{
    if s.len() <= at {
        return Err(Misfit { place: at });
    }
    if s[at] != b'\n' {
        return Err(Misfit { place: at });
    }
    let next = at + 1;
    match kind {
        Kind::Tariff => Ok(After::Record { next }),
        Kind::Production => {
            if next < s.len() {
                Ok(After::Record { next })
            } else {
                Ok(After::End)
            }
        }
    }
}

// Where the file ends after a field: the production file may.
fn after_all(kind: Kind, at: usize) -> Result<After, Misfit>
    ensures { result ≡ at_last kind at }
{
    match kind {
        Kind::Tariff => Err(Misfit { place: at }),
        Kind::Production => Ok(After::End),
    }
}

// After a field with a minus, which is a unit cost: a comma, and a further field.
fn after_cost(s: &[u8], at: usize) -> Result<After, Misfit>
    requires { at ≤ length s.now }
    ensures { result ≡ cost_at s.now at }
{
    if s.len() <= at {
        return Err(Misfit { place: at });
    }
    if s[at] != b',' {
        return Err(Misfit { place: at });
    }
    Ok(After::Field { next: at + 1 })
}

// What stands after a field, with a minus or not, that ends at an offset, in a record that is known to be a source's or not.
pub fn read_after(
    kind: Kind,
    minus: bool,
    source: bool,
    s: &[u8],
    at: usize,
) -> Result<After, Misfit>
    requires { at ≤ length s.now }
    ensures { result ≡ after_at kind minus source s.now at }
{
    if minus {
        return after_cost(s, at);
    }
    if s.len() <= at {
        return after_all(kind, at);
    }
    let b = s[at];
    let next = at + 1;
    if b == b',' {
        return after_comma(kind, source, s, next);
    }
    if b == b'\r' {
        return after_record(kind, s, next);
    }
    Err(Misfit { place: at })
}
