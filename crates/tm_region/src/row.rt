ghost use Rattle.std.specs.Prelude.{◌≡◌, ℕ, ◌<◌, ◌||◌};
ghost use Rattle.tm_region.specs.Table.{lone_row, stands_in};

/// The most regions that a world has.
const MOST: usize = 17;

/// For one region, whether a chain of bounds leads to each region.
pub type Row = [bool; MOST];

/// The row of a region that leads to itself alone.
pub fn lone_row(region: usize) -> Row
    requires { region < 17 }
    ensures { result ≡ lone_row region }
{
    let mut row = [false; MOST];
    row[region] = true;
    row
}

/// Adds to a row what stands in another.
pub fn join(row: &mut Row, other: &Row)
    ensures { (b : ℕ) → stands_in row.new b ≡ (stands_in row.old b || stands_in other.now b) }
{
    for (place, has) in row.iter_mut().enumerate() {
        *has = *has || other[place];
    }
}
