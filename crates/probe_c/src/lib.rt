// The functions of `probe` under their C names, for the benchmark of worth.
#![tactic(auto)]

// The worths of that many sets to a team, added up.
#[unsafe(no_mangle)]
pub extern "C" fn probe_worth(file: &[u8], team: u64, rounds: u64) -> u64 {
    probe::probe_worth(file, team, rounds)
}

// The gains of that many independent sets of a team, added up.
#[unsafe(no_mangle)]
pub extern "C" fn probe_gains(file: &[u8], team: u64, rounds: u64) -> u64 {
    probe::probe_gains(file, team, rounds)
}
