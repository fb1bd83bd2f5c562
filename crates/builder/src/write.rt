// Writing a sheet: rows of bytes at offsets of a lent buffer.
// Kept (point 5): m ≤ 64 and n ≤ 12 stand in each contract, as in `sheet`.
ghost use Rattle.std.specs.Prelude.{◌+◌, ◌*◌, ◌≤◌, length};
ghost use Rattle.builder.specs.Rows.{Row, three, set_bytes, row_bytes, page_bytes, PagesRow, Written};
ghost use Rattle.sheet.specs.Layout.{length_of, share_start};

use engine::divide::Division;
use engine::share::Shared;

// Three bytes.
fn write_three(buffer: &mut [u8], at: usize, a: u8, b: u8, c: u8)
    requires { at + 3 ≤ length buffer.old }
    ensures { Row buffer.old buffer.new at 3 (three a b c) }
{
    buffer[at..at + 3].copy_from_slice(&[a, b, c]);
}

// The eight bytes of a set, low byte first.
fn write_set(buffer: &mut [u8], at: usize, set: u64)
    requires { at + 8 ≤ length buffer.old }
    ensures { Row buffer.old buffer.new at 8 (set_bytes set) }
{
    buffer[at..at + 8].copy_from_slice(&set.to_le_bytes());
}

// A command of three bytes for each of m instruments: its byte, the instrument, and what a table names.
fn write_rows(buffer: &mut [u8], at: usize, m: usize, byte: u8, table: [u8; 64])
    requires { (at + 3 * m ≤ length buffer.old) × (m ≤ 64) }
    ensures { Row buffer.old buffer.new at (3 * m) (row_bytes byte table) }
{
    for (g, name) in table[..m].iter().enumerate() {
        write_three(buffer, at + 3 * g, byte, g as u8, *name);
    }
}

// A team's SHARE and PARTs.
fn write_page(buffer: &mut [u8], at: usize, m: usize, t: u8, one: Shared)
    requires { (at + (11 + 3 * m) ≤ length buffer.old) × (m ≤ 64) }
    ensures { Row buffer.old buffer.new at (11 + 3 * m) (page_bytes t one) }
{
    let part = one.part;
    write_three(buffer, at, 20, t, one.share);
    write_set(buffer, at + 3, one.bound);
    write_rows(buffer, at + 11, m, 21, part);
}

// One byte.
fn write_byte(buffer: &mut [u8], at: usize, v: u8)
    requires { at + 1 ≤ length buffer.old }
    ensures { Row buffer.old buffer.new at 1 (λ k. v) }
{
    buffer[at] = v;
}

// The SHARE and PARTs of each team.
fn write_pages(buffer: &mut [u8], m: usize, n: usize, shares: [Shared; 12])
    requires { (share_start m n ≤ length buffer.old) × (m ≤ 64) × (n ≤ 12) }
    ensures { PagesRow buffer.old buffer.new m n shares }
{
    for (t, one) in shares[..n].iter().enumerate() {
        write_page(buffer, sheet::share_start(m, t), m, t as u8, *one);
    }
}

// A whole sheet at the start of a buffer.
pub fn write_sheet(buffer: &mut [u8], m: usize, n: usize, total: u8, d: Division)
    requires { (length_of m n ≤ length buffer.old) × (m ≤ 64) × (n ≤ 12) }
    ensures { Written buffer.old buffer.new m n total d }
{
    let h = d.holding;
    let owner = h.owner;
    let shares = d.shares;
    let bound = 4 + 3 * m;
    write_three(buffer, 0, 17, m as u8, n as u8);
    write_byte(buffer, 3, total);
    write_rows(buffer, 4, m, 18, owner);
    write_byte(buffer, bound, 19);
    write_set(buffer, bound + 1, d.bound);
    write_pages(buffer, m, n, shares);
    write_byte(buffer, sheet::share_start(m, n), 22);
}
