//! How a value goes to another thread and back.
ghost use Rattle.std.specs.Prelude.{◌≡◌};

use std::snapshot::Snapshot;
use std::thread::{Threads, join};

/// Moves the value into another thread and back, and then lends it to two threads at once. Where no thread can be made
/// this one does it all. A call is proved only at a type with proofs of `Send` and of `Sync`.
pub fn there_and_back<R: Threads, T: Send + Sync + Drop>(rt: &R, value: T) -> T
    ensures { result ≡ value }
{
    let (back, ()) = join(rt, move || value, || ());
    let lent = &back;
    join(rt, || seen(lent), || seen(lent));
    back
}

/// What a thread sees of it.
fn seen<T>(value: &T) -> Snapshot<T>
    ensures { result.value ≡ value.now }
{
    Snapshot::of(value)
}
