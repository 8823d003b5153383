// A file: its records, counted, and their fields in file order.
ghost use Rattle.std.specs.Prelude.{◌≡◌};
ghost use Rattle.csv_table.specs.Files.{judged, table_of, stands};
ghost use Rattle.csv_form.specs.declared.Kind.TheVariants as kinds;
ghost use Rattle.csv_table.specs.inner.Tallies.{start_tally, field_tally, record_tally, source_tally, Countable, handed_on};
ghost use Rattle.csv_table.specs.inner.Tallies.{Scanned, TableRead};

use crate::store::put;
use csv_form::after::{After, read_after};
use csv_form::field::{Field, read_field, with_sign};
use csv_form::{Kind, Misfit};
use refusal::{Cause, Refusal};

// The whole file's count of records and of each record's fields.
#[derive(Clone, Copy, Debug, PartialEq, Eq)]
pub struct Shape {
    pub records: usize,
    pub fields: usize,
}

// What is counted on the way: the records before this one, the fields of this one, the fields that each is to have (0 where that is not known
// yet), the first record with another count (0 where there is none), and all fields; and whether this record has a minus.
// Stays: a width or an odd record that is 0 stands for none, as in the definitions `wanted` and `odd_from`.
#[derive(Clone, Copy, Debug, PartialEq, Eq)]
pub struct Tally {
    pub records: usize,
    pub fields: usize,
    pub width: usize,
    pub odd: usize,
    pub values: usize,
    pub rebate: bool,
}

impl Tally {
    pub fn start(kind: Kind) -> Self
        ensures { result ≡ start_tally kind }
    {
        let width = match kind {
            Kind::Tariff => 0,
            Kind::Production => 1,
        };
        Self {
            records: 0,
            fields: 0,
            width,
            odd: 0,
            values: 0,
            rebate: false,
        }
    }

    // One more field, with a minus or not.
    fn with_field(self, minus: bool) -> Self
        requires { Countable self }
        ensures { result ≡ field_tally minus self }
    {
        Self {
            fields: self.fields + 1,
            values: self.values + 1,
            rebate: minus || self.rebate,
            ..self
        }
    }

    // The record ends.
    fn with_record(self) -> Self
        requires { Countable self }
        ensures { result ≡ record_tally self }
    {
        let records = self.records + 1;
        let width = if self.width == 0 {
            self.fields
        } else {
            self.width
        };
        let odd = if self.odd == 0 && self.fields != width {
            records
        } else {
            self.odd
        };
        Self {
            records,
            fields: 0,
            width,
            odd,
            rebate: false,
            ..self
        }
    }

    // Is this record known to be a source's: the first, or one with a minus?
    pub fn source(self) -> bool
        ensures { result ≡ source_tally self }
    {
        self.rebate || self.records == 0
    }

    pub fn table(self) -> Result<Shape, Refusal>
        ensures { result ≡ judged self.odd self.records self.width }
    {
        let odd = self.odd;
        if odd != 0 {
            return Err(Cause::Fields.at(odd as u64));
        }
        Ok(Shape {
            records: self.records,
            fields: self.width,
        })
    }
}

// The refusal of a field that was not read.
fn handed_on(read: Result<Field, Misfit>) -> Result<Shape, Refusal>
    ensures { result ≡ handed_on read }
{
    match read {
        Ok(f) => Err(Cause::Form.at(f.next as u64)),
        Err(m) => Err(m.into()),
    }
}

// Goes through a file, and stores its fields in file order as far as there are cells, also those before a fault.
fn scan(kind: Kind, s: &[u8], cells: &mut [i64]) -> Result<Shape, Refusal>
    ensures { Scanned kind s.now cells.old cells.new result }
{
    if 65_536 < s.len() {
        return Err(Cause::File.at(0));
    }
    let mut t = Tally::start(kind);
    let mut at: usize = 0;
    loop {
        // No `?`, which would do the same: the scope names `let .. else` here, with the refusal handed on from the other branch.
        let read = read_field(kind, s, at);
        let Ok(f) = read else {
            return handed_on(read);
        };
        let k = t.values;
        put(cells, k, with_sign(f.minus, f.value));
        t = t.with_field(f.minus);
        let source = t.source();
        let a = read_after(kind, f.minus, source, s, f.next)?;
        match a {
            After::Field { next } => {
                at = next;
            }
            After::Record { next } => {
                t = t.with_record();
                at = next;
            }
            After::End => {
                return t.with_record().table();
            }
            After::Empty => {
                put(cells, k + 1, 0);
                return t.with_field(false).with_record().table();
            }
        }
    }
}

// Reads a file, and stores its fields in file order as far as there are cells. A refusal changes no cell: the file is judged first.
pub fn read_table(kind: Kind, s: &[u8], cells: &mut [i64]) -> Result<Shape, Refusal>
    ensures { TableRead kind s.now cells.old cells.new result }
{
    let mut none = [0i64; 1];
    scan(kind, s, &mut none)?;
    scan(kind, s, cells)
}

// Whether the tariff is accepted by 20 to 22: a refusal by these is then about the production file.
pub fn tariff_stands(tariff: &[u8]) -> bool
    ensures { result ≡ stands (table_of kinds.Tariff tariff.now) }
{
    let mut cells = [0i64; 1];
    scan(Kind::Tariff, tariff, &mut cells).is_ok()
}
