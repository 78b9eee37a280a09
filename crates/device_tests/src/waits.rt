use std::time::{Duration, Instant};
use thread_waits::{Backoff, wait, wait_piece};

const PIECES: u32 = 10_000;

// So many pieces take some 40 milliseconds, and a loop that the compiler removed takes none.
#[test]
fn a_wait_takes_its_time(rt: HostRuntime) {
    let Ok(start) = Instant::now(&rt) else {
        return;
    };
    for piece in 0..PIECES {
        wait_piece(piece);
    }
    wait();
    let took = start.elapsed(&rt).unwrap_or_default();
    assert!(rt; took >= Duration::from_millis(5), "{took:?}");
}

// Two threads that lost to the same winner wait for different times, and for longer ones after a
// second loss.
#[test]
fn who_lost_waits_at_random(rt: HostRuntime) {
    let mut first = Backoff::new(1);
    let mut second = Backoff::new(2);
    let mut differ = 0u32;
    let mut long = 0u32;
    assert!(rt; first.pieces() < 32 && second.pieces() < 32);
    for _loss in 0..100 {
        let pieces = first.pieces();
        if pieces != second.pieces() {
            differ = differ.saturating_add(1);
        }
        if pieces >= 32 {
            long = long.saturating_add(1);
        }
    }
    assert!(rt; differ > 90, "{differ}");
    assert!(rt; long > 25 && long < 75, "{long}");
}
