// Who may do what.
ghost use Rattle.std.specs.Prelude.{◌≡◌, not, ◌||◌, ◌&&◌, ◌≤◌, eqb};
ghost use Rattle.roletable.specs.Column.{column_of};
ghost use Rattle.roletable.specs.Roles.{barred, barred_first};

// The deeds, by their columns in the table.
#[derive(Clone, Copy, Debug, PartialEq, Eq)]
pub enum Deed {
    // A demand or a supply.
    EditAmount = 1,
    EditCost = 2,
    EditEntry = 3,
    SeeTariff = 4,
    SeeTable = 5,
    Plan = 6,
    SetMark = 7,
    GoBack = 8,
}

impl Deed {
    fn column(self) -> usize
        ensures number { result ≡ column_of self }
        ensures within { (1 ≤ result) × (result ≤ 8) }
    {
        self as usize
    }
}

// Rows: planner, plant, depot, reader. Columns: edit demand or supply, edit lane cost, edit entry, see tariff, see table, plan, set mark, go back.
// Stays: a table of 0 and 1 reads as the rows do that the roles are given by; of `true` and `false` it does not.
const ROLES: [[u8; 8]; 4] = [
    [1, 1, 1, 1, 1, 1, 1, 1],
    [0, 0, 1, 1, 1, 0, 0, 0],
    [1, 0, 0, 1, 0, 0, 0, 0],
    [0, 0, 0, 1, 0, 0, 0, 0],
];

// The exception beside it: who may edit a_1.
const FIRST_SUPPLY: [u8; 4] = [1, 0, 0, 0];

// Whether the role, numbered from 1, may do the deed. A role of another number may do none.
pub fn may(role: usize, deed: Deed) -> bool
    ensures { result ≡ not (barred role (column_of deed)) }
{
    if role < 1 || 4 < role {
        return false;
    }
    let a = role - 1;
    let b = deed.column() - 1;
    ROLES[a][b] != 0
}

fn may_first(role: usize) -> bool
    ensures { result ≡ not (barred_first role) }
{
    if role < 1 || 4 < role {
        return false;
    }
    let a = role - 1;
    FIRST_SUPPLY[a] != 0
}

// Whether the role may edit the supply of source i.
pub fn may_supply(role: usize, i: usize) -> bool
    ensures { result ≡ not (barred role 1 || (eqb i 1 && barred_first role)) }
{
    if may(role, Deed::EditAmount) {
        if i == 1 {
            return may_first(role);
        }
        return true;
    }
    false
}
