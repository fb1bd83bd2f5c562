// The parts of the answer to a file that is accepted, by the table of rows: the teams, their days, the shelf days of the instruments and the
// teams that instruments are glued to.
ghost use Rattle.std.specs.Prelude.{◌≡◌, ◌+◌, ◌*◌, ◌≤◌, ◌<◌, length};
ghost use Rattle.row.specs.Row.{part, row_team};
ghost use Rattle.row.specs.Days.{days_of};
ghost use Rattle.plan.specs.Read.{teams_of, team_days, shelf_days};
ghost use Rattle.plan.specs.Progress.{row_at, rows_in};

use super::filled::filled;
use days::Days;
use team::Team;

// Row k of the table.
pub fn row_at(rows: &[u8], k: usize) -> &[u8]
    requires { (length rows.now ≡ 4802) × (k ≤ 13) }
    ensures { result.now ≡ part rows.now (343 * k) 343 }
{
    let start = row::WIDTH * k;
    &rows[start..start + row::WIDTH]
}

// The team opened (t + 1)-th.
pub fn team_at(rows: &[u8], t: usize) -> Team
    requires { (length rows.now ≡ 4802) × (t < 12) }
    ensures { result ≡ row_at rows.now (t + 1) }
{
    row::team(row_at(rows, t + 1))
}

// Its days.
pub fn days_at(rows: &[u8], t: usize) -> Days
    requires { (length rows.now ≡ 4802) × (t < 12) }
    ensures { result ≡ days_of (row_at rows.now (t + 1)) }
{
    row::days(row_at(rows, t + 1))
}

// The teams of the first n rows after the pool's, and blank ones beyond.
pub fn teams(rows: &[u8], n: usize) -> [Team; 12]
    requires { (length rows.now ≡ 4802) × (n ≤ 12) }
    ensures { result ≡ teams_of (rows_in rows.now n) }
{
    filled(n, team::blank(), |t| team_at(rows, t))
}

// The days of these teams, and every day beyond.
pub fn days(rows: &[u8], n: usize) -> [Days; 12]
    requires { (length rows.now ≡ 4802) × (n ≤ 12) }
    ensures { result ≡ team_days (rows_in rows.now n) }
{
    filled(n, days::always(), |t| days_at(rows, t))
}

// The shelf days of the instruments below m, by the pool's row, and every day beyond.
pub fn shelf(pool: &[u8], m: usize) -> [Days; 64]
    requires { (length pool.now ≡ 343) × (m ≤ 64) }
    ensures { result ≡ shelf_days m (row_team pool.now) }
{
    filled(m, days::always(), |i| row::shelf(pool, i))
}

// The team that each instrument is glued to, by the row of the glued ones.
pub fn glue(rows: &[u8]) -> [u8; 64]
    requires { length rows.now ≡ 4802 }
    ensures { result ≡ (row_at rows.now 13).named }
{
    row::names(row_at(rows, 13))
}
