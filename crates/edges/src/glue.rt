// The glued instruments of a reading: ` GLUE instrument:team` for each one. Of an instrument that is glued to no team nothing is shown.
use std::io;

// Each glued instrument and its team; the table has the team's number counted from 1.
pub fn show(rt: &impl Print, table: &[u8; 64]) -> io::Result<()> {
    for (i, number) in table.iter().enumerate() {
        if *number != 255 {
            print!(rt; " GLUE {i}:{}", u64::from(*number).wrapping_sub(1))?;
        }
    }
    Ok(())
}

// A `!` where a number of a refused plan is not 0.
pub fn refused(rt: &impl Print, table: &[u8; 64]) -> io::Result<()> {
    if table.iter().any(|number| *number != 0) {
        print!(rt; "!")?;
    }
    Ok(())
}
