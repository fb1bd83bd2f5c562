// The loan days of a reading: ` SHELF instrument:from-to` for each instrument, and ` DAYS from-to` for a team. Of an instrument on the shelf from
// day 0 to day 65,535, and of a team with no DAYS, nothing is shown.
use days::Days;
use std::io;

// Whether days are those where none are named.
fn are_always(d: &Days) -> bool {
    matches!(d, Days { from: 0, to: 65535 })
}

// Whether days are those of a refused plan.
fn are_zero(d: &Days) -> bool {
    matches!(d, Days { from: 0, to: 0 })
}

// The shelf days of each instrument.
pub fn shelf(rt: &impl Print, table: &[Days; 64]) -> io::Result<()> {
    for (i, d) in table.iter().enumerate() {
        if !are_always(d) {
            print!(rt; " SHELF {i}:{}-{}", d.from, d.to)?;
        }
    }
    Ok(())
}

// Whether the bytes of a team's DAYS are those of its days; where it has none, whether the filler stands there and the days are 0 to 65,535.
fn agree(bytes: [u8; 5], d: &Days) -> bool {
    let [from_low, from_high] = d.from.to_le_bytes();
    let [to_low, to_high] = d.to.to_le_bytes();
    match bytes[0] {
        11 => bytes == [11, from_low, from_high, to_low, to_high],
        _ => bytes == [255; 5] && are_always(d),
    }
}

// The days of a team. A `!` marks days that are not those that its DAYS names.
pub fn team(rt: &impl Print, bytes: [u8; 5], d: &Days) -> io::Result<()> {
    if bytes[0] != 255 {
        print!(rt; " DAYS {}-{}", d.from, d.to)?;
    }
    if !agree(bytes, d) {
        print!(rt; "!")?;
    }
    Ok(())
}

// A `!` where days of a refused plan are not 0.
pub fn refused(rt: &impl Print, shelf: &[Days; 64], days: &[Days; 12]) -> io::Result<()> {
    if !shelf.iter().chain(days).all(are_zero) {
        print!(rt; "!")?;
    }
    Ok(())
}
