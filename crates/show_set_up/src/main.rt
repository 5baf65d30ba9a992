// Shows what set-up does: case 1's holdings, every word of a small table on a run of nines, and a refusal.
#![tactic(auto)]

use std::io;

fn case_one(rt: &impl Print) -> io::Result<()> {
    let mut t = [9u16; 1040];
    show::line(rt, 1, set_up::set_up(&mut t, 3, 3, 64))?;
    for k in 0..=3 {
        show::holdings(rt, &t, k)?;
    }
    Ok(())
}

// Set-up 2 1 16, and so many rows of what it leaves.
fn small_table(rt: &impl Print, t: &mut [u16], rows: u16) -> io::Result<()> {
    show::line(rt, 1, set_up::set_up(t, 2, 1, 16))?;
    show::table(rt, t, rows)
}

// The table of the last set-up is too short, so it is refused.
fn main(rt: HostRuntime) -> io::Result<()> {
    case_one(&rt)?;
    small_table(&rt, &mut [9; 288], 18)?;
    small_table(&rt, &mut [9; 32], 2)
}
