//! How many states the walks may enter in some memory.

ghost use Rattle.std.specs.Prelude.{◌≡◌, ◌≤◌};
ghost use Rattle.greedy_walk.specs.Bytes.{most_within_of};

use state_store::store::bytes_of;

/// How many bytes a state takes in the queues of those who lead the walks.
const QUEUE_BYTES: u64 = 104;

/// How many states of so many facts these bytes hold, with their places in the queues: 4,294,967,295 at most.
pub fn most_within(facts: u32, bytes: u64) -> u32
    requires { facts ≤ 2147483647 }
    ensures { result ≡ most_within_of facts bytes }
{
    (bytes / (bytes_of(facts) + QUEUE_BYTES)).min(4_294_967_295) as u32
}
