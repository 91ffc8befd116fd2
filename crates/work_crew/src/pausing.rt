//! Waiting between two tries.
ghost use Rattle.std.specs.Prelude.{◌≡◌, ◌+◌, min};

use std::sync::Wait;
use std::sync::atomic::AtomicU64;
use std::thread;
use std::time::Duration;

/// The misses that a wait begins with. A try that gives nothing costs as much as many that give something, so it is worth
/// waiting until there is more than one thing to find.
pub const FIRST: u32 = 3;

/// How many tries in a row that gave nothing are followed by yields, and the later ones by sleep.
const YIELDS: u32 = 5;

/// Sleeps for a short while, in which others have the processor.
fn sleep<R: Wait>(rt: &R) {
    let never = AtomicU64::new(0);
    never.park_timeout(rt, 0, Duration::from_micros(20));
}

/// Lets others go on before the next try, where so many tries in a row gave nothing: it yields once at first and twice as
/// often after each further one, and after the fifth it sleeps. A try that gives nothing takes the cache lines that it
/// looks at from those who are about to fill them, so the fewer of them there are the sooner something is there; and who
/// yields alone on a processor keeps it from others. Answers how many tries gave nothing then, of which no more than 6
/// are counted.
pub fn pause<R: Wait>(rt: &R, misses: u32) -> u32
    ensures { result ≡ min misses 5 + 1 }
{
    if misses < YIELDS {
        for _ in 0..1u32 << misses {
            thread::yield_now();
        }
    } else {
        sleep(rt);
    }
    misses.min(5) + 1
}
