// The verbs that judge a sheet by a plan.
ghost use Rattle.std.specs.Prelude.{◌<◌, length};

use lines::bytes;
use lines::print::InHex;
use std::io;

// Answers by the plan that a text starts with, and the sheet that stands behind the `/` of the operands.
fn with_both<F: FnOnce(&[u8], &mut [u8]) -> io::Result<()>>(
    text: &[u8],
    operands: &[u8],
    answer: F,
) -> io::Result<()>
    requires { F.IsAlwaysCallable answer }
{
    let mut plan = [0u8; 4096];
    let mut sheet = [0u8; 4096];
    let plan = bytes::decoded(text, &mut plan);
    let sheet = bytes::decoded(lines::after(operands, b'/'), &mut sheet);
    answer(plan, sheet)
}

// `check PLAN / SHEET`: what Check answers.
pub fn check(rt: &impl Print, operands: &[u8]) -> io::Result<()> {
    with_both(
        operands,
        operands,
        |plan, sheet| match checker::check(plan, sheet) {
            Ok(()) => print!(rt; "ACCEPTED"),
            Err(refusal) => print!(rt; "{refusal}"),
        },
    )
}

// `page TEAM PLAN / SHEET`: a team's page, in hexadecimal.
pub fn page(rt: &impl Print, operands: &[u8]) -> io::Result<()> {
    let team = lines::number(operands);
    with_both(lines::rest(operands), operands, |plan, sheet| {
        print!(rt; "PAGE {}", InHex(checker::page(plan, sheet, team)))
    })
}

// The verdicts for a sheet whose byte at an offset takes every value: each value whose verdict is not that of the value before it, with the
// number and the place.
fn change(rt: &impl Print, plan: &[u8], sheet: &mut [u8], at: usize) -> io::Result<()>
    requires { at < length sheet.old }
{
    let old = sheet[at];
    let mut last = None;
    print!(rt; "\nbyte {at}")?;
    for value in 0..=u8::MAX {
        sheet[at] = value;
        let verdict = checker::check(plan, sheet);
        let (number, place) = (checker::number(verdict), checker::place(verdict));
        if last != Some((number, place)) {
            print!(rt; "; {value} {number} {place}")?;
        }
        last = Some((number, place));
    }
    sheet[at] = old;
    Ok(())
}

// The same for each byte.
fn change_each(rt: &impl Print, plan: &[u8], sheet: &mut [u8]) -> io::Result<()> {
    // Kept (point 3): `change` takes the whole sheet, which an iterator over it would hold.
    for at in 0..sheet.len() {
        change(rt, plan, sheet, at)?;
    }
    Ok(())
}

// `changes PLAN / SHEET`: a sheet with each of its bytes changed to each value.
pub fn changes(rt: &impl Print, operands: &[u8]) -> io::Result<()> {
    print!(rt; "CHANGES")?;
    with_both(
        operands,
        operands,
        |plan, sheet| change_each(rt, plan, sheet),
    )
}
