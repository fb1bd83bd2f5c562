// The form of a sheet, byte by byte. Each function that looks at a stretch fails with the offset of the first byte that is not allowed.
ghost use Rattle.std.specs.Prelude.{◌≡◌, [], ◌∷◌, ◌++◌, ◌+◌, ◌*◌, ◌^◌, ◌≤◌, ◌<◌, ltb, length};
ghost use Rattle.matroid.specs.Cuts.{each};
ghost use Rattle.sheet.specs.Layout.{length_of, give_start, bound_start};
ghost use Rattle.sets.specs.Bits.{bit};
ghost use Rattle.sheet.specs.Form.{is, command, head, give, bound, part, present_page, away_page, page, end, set, form, first_fault, tested};

use super::{bound_start, give_start, length, share_start};
use sets::wide;

// Whether a byte has no bit from `room` on.
fn clear(byte: u8, room: usize) -> bool
    ensures { result ≡ ltb byte (2 ^ room) }
{
    if 8 <= room {
        return true;
    }
    wide(byte) < 1usize << room
}

// The 8 bytes of a set.
fn set(sheet: &[u8], at: usize, m: usize) -> Result<(), usize>
    requires { at + 8 ≤ length sheet.now }
    ensures { result ≡ tested (set m) sheet.now at }
{
    for k in 0..8usize {
        if !clear(sheet[at + k], m.saturating_sub(8 * k)) {
            return Err(at + k);
        }
    }
    Ok(())
}

// The first two bytes of a command: its own byte and a number.
fn command(sheet: &[u8], at: usize, byte: u8, number: usize) -> Result<(), usize>
    requires { at + 2 ≤ length sheet.now }
    ensures { result ≡ tested (command byte number) sheet.now at }
{
    if sheet[at] != byte {
        return Err(at);
    }
    if wide(sheet[at + 1]) != number {
        return Err(at + 1);
    }
    Ok(())
}

// HEAD, at the start.
fn head(sheet: &[u8], m: usize, n: usize) -> Result<(), usize>
    requires { 4 ≤ length sheet.now }
    ensures { result ≡ tested (head m n) sheet.now 0 }
{
    command(sheet, 0, 0x11, m)?;
    if wide(sheet[2]) != n {
        return Err(2);
    }
    Ok(())
}

// The GIVE of instrument g.
fn give(sheet: &[u8], at: usize, n: usize, g: usize) -> Result<(), usize>
    requires { at + 3 ≤ length sheet.now }
    ensures { result ≡ tested (give n g) sheet.now at }
{
    command(sheet, at, 0x12, g)?;
    let t = wide(sheet[at + 2]);
    if n <= t && t != 255 {
        return Err(at + 2);
    }
    Ok(())
}

// The GIVEs of m instruments, after HEAD.
fn gives(sheet: &[u8], m: usize, n: usize) -> Result<(), usize>
    requires { (m ≤ 64) × (bound_start m ≤ length sheet.now) }
    ensures { result ≡ tested (each m (give n)) sheet.now (give_start 0) }
{
    for g in 0..m {
        give(sheet, give_start(g), n, g)?;
    }
    Ok(())
}

// BOUND.
fn bound(sheet: &[u8], at: usize, m: usize) -> Result<(), usize>
    requires { at + 9 ≤ length sheet.now }
    ensures { result ≡ tested (bound m) sheet.now at }
{
    if sheet[at] != 0x13 {
        return Err(at);
    }
    set(sheet, at + 1, m)
}

// The PART of instrument g, of p parts.
fn part(sheet: &[u8], at: usize, p: usize, g: usize) -> Result<(), usize>
    requires { at + 3 ≤ length sheet.now }
    ensures { result ≡ tested (part p g) sheet.now at }
{
    command(sheet, at, 0x15, g)?;
    if p <= wide(sheet[at + 2]) {
        return Err(at + 2);
    }
    Ok(())
}

// The PARTs of m instruments.
fn parts(sheet: &[u8], at: usize, m: usize, p: usize) -> Result<(), usize>
    requires { at + 3 * m ≤ length sheet.now }
    ensures { result ≡ tested (each m (part p)) sheet.now at }
{
    for g in 0..m {
        part(sheet, at + 3 * g, p, g)?;
    }
    Ok(())
}

// The SHARE and the PARTs of team t, which is one of p that are present.
fn present_page(sheet: &[u8], at: usize, m: usize, p: usize, t: usize) -> Result<(), usize>
    requires { at + (11 + 3 * m) ≤ length sheet.now }
    ensures { result ≡ tested (present_page m p t) sheet.now at }
{
    command(sheet, at, 0x14, t)?;
    set(sheet, at + 3, m)?;
    parts(sheet, at + 11, m, p)
}

// Nine bytes of 0: a share and a set.
fn zeros(sheet: &[u8], at: usize) -> Result<(), usize>
    requires { at + 9 ≤ length sheet.now }
    ensures { result ≡ tested (each 9 (λ k. is 0 ∷ [])) sheet.now at }
{
    for k in 0..9usize {
        if sheet[at + k] != 0 {
            return Err(at + k);
        }
    }
    Ok(())
}

// The SHARE and the PARTs of team t, which is away: it states 0 alone, so that its parts are below 1.
fn away_page(sheet: &[u8], at: usize, m: usize, t: usize) -> Result<(), usize>
    requires { at + (11 + 3 * m) ≤ length sheet.now }
    ensures { result ≡ tested (away_page m t) sheet.now at }
{
    command(sheet, at, 0x14, t)?;
    zeros(sheet, at + 2)?;
    parts(sheet, at + 11, m, 1)
}

// The SHARE and the PARTs of team t: p teams are present, those in `here`.
fn page(sheet: &[u8], at: usize, m: usize, p: usize, here: u64, t: usize) -> Result<(), usize>
    requires { (at + (11 + 3 * m) ≤ length sheet.now) × (t < 64) }
    ensures { result ≡ tested (page m p (bit here) t) sheet.now at }
{
    if sets::member(here, t) {
        return present_page(sheet, at, m, p, t);
    }
    away_page(sheet, at, m, t)
}

// What n teams state, and END.
fn pages(sheet: &[u8], m: usize, n: usize, p: usize, here: u64) -> Result<(), usize>
    requires { (m ≤ 64) × (n ≤ 12) × (length_of m n ≤ length sheet.now) }
    ensures { result ≡ tested (each n (page m p (bit here)) ++ end) sheet.now (bound_start m + 9) }
{
    for t in 0..n {
        page(sheet, share_start(m, t), m, p, here, t)?;
    }
    let last = share_start(m, n);
    if sheet[last] != 0x16 {
        return Err(last);
    }
    Ok(())
}

// A whole sheet. Of n teams those in `here` are present.
fn whole(sheet: &[u8], m: usize, n: usize, here: u64) -> Result<(), usize>
    requires { (m ≤ 64) × (n ≤ 12) × (length_of m n ≤ length sheet.now) }
    ensures { result ≡ tested (form m n (bit here)) sheet.now 0 }
{
    head(sheet, m, n)?;
    gives(sheet, m, n)?;
    bound(sheet, bound_start(m), m)?;
    pages(sheet, m, n, sets::size_below(n, here), here)
}

// The first byte that form, order or range does not allow, or the sheet's length. Of n teams those in `here` are present.
// Kept (point 1): the clause result ≡ first_fault .. answers an offset, the sheet's length where no byte is refused.
pub fn first_fault(sheet: &[u8], m: usize, n: usize, here: u64) -> usize
    requires { (m ≤ 64) × (n ≤ 12) × (length_of m n ≤ length sheet.now) }
    ensures { result ≡ first_fault (form m n (bit here)) sheet.now 0 }
{
    match whole(sheet, m, n, here) {
        Ok(()) => length(m, n),
        Err(at) => at,
    }
}
