ghost use Rattle.std.specs.Prelude.{◌≡◌, ℕ, ◌+◌, ◌<◌, ◌≤◌, ◌^◌, IsSome, OnOk};
ghost use Rattle.std.specs.FinMap as map;
ghost use Rattle.std.specs.declared.cmp.Ordering.{Ordering};
ghost use Rattle.timeline.specs.Maps.{put, one_at, IsKeyOrder};

use crate::memory::NoMemory;
use crate::steps::Swap;

/// Rows under keys. A row has a value while it is live, and a count of the kept swaps that name its key. It stays while
/// it has either, so its key is not given again before.
pub trait KeptRows<K: Copy, V: Copy> {
    ghost order: { K → K → Ordering };

    ghost live: { Self → map.FinMap order V };

    ghost mentions: { Self → K → ℕ };

    ghost room: { Self → ℕ };

    /// Makes room for so many new rows.
    fn make_room(&mut self, rows: usize) -> Result<(), NoMemory>
        ensures live { live self.new ≡ live self.old }
        ensures mentions { (k : K) → mentions self.new k ≡ mentions self.old k }
        ensures room { room self.old ≤ room self.new }
        ensures ok { OnOk result (rows ≤ room self.new) };

    /// Gives the key this value or none, and answers what it had.
    fn exchange(&mut self, key: K, value: Option<V>) -> Option<V>
        requires { 0 < mentions self.old key }
        ensures before { result ≡ map.get (live self.old) key }
        ensures live { live self.new ≡ put (live self.old) key value }
        ensures mentions { (k : K) → mentions self.new k ≡ mentions self.old k }
        ensures room { room self.new ≡ room self.old };

    /// Gives a live key this value or none, and counts the swap that takes it back, which it answers.
    fn swap(&mut self, key: K, value: Option<V>) -> Swap<K, V>
        requires live { IsSome (map.get (live self.old) key) }
        requires few { mentions self.old key + 1 < 2 ^ 64 }
        ensures swap { result ≡ record { key = key; value = map.get (live self.old) key } }
        ensures live { live self.new ≡ put (live self.old) key value }
        ensures mentions { (k : K) → mentions self.new k
            ≡ mentions self.old k + one_at order key k }
        ensures room { room self.new ≡ room self.old };

    /// Forgets one swap of the key. A row that is not live leaves with its last swap.
    fn release(&mut self, key: K)
        requires { 0 < mentions self.old key }
        ensures live { live self.new ≡ live self.old }
        ensures mentions { (k : K) → mentions self.new k + one_at order key k
            ≡ mentions self.old k }
        ensures room { room self.old ≤ room self.new };

    ghost ordered: { IsKeyOrder order };
}
