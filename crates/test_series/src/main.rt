// Puts the series that tests/series_vectors.py writes to the soundness test, and prints the verdict on each on a line.
#![tactic(auto)]

use series::sound::check_series;
use std::io;
use test_reading::input::next_record;
use test_series_bytes::series_of;

// How many bytes a series has.
const SERIES: usize = 1590;

fn tell(rt: &impl Print, ok: bool) -> io::Result<()> {
    if ok {
        rt.print("sound\n")
    } else {
        rt.print("unsound\n")
    }
}

// As many series as there are, and 1,000 at most.
fn main(rt: HostRuntime) -> io::Result<()> {
    let mut input = rt.stdin();
    for _ in 0..1000u32 {
        let Some(bytes) = next_record::<SERIES, _>(&mut input)? else {
            break;
        };
        let check = check_series(series_of(&bytes));
        tell(&rt, check.is_some())?;
    }
    Ok(())
}
