// The queue of a search, and with it the set of the buckets that are marked: scratch as a sparse set, which is never cleared
// (specs/Scratch.antt).
ghost use Rattle.std.specs.Prelude.{◌≡◌, ℕ, false, ◌+◌, ◌*◌, ◌-◌, ◌<◌, ◌≤◌, length};
ghost use Rattle.calls.specs.Search.{marked as marked_in};
ghost use Rattle.table.specs.Scratch.{bucket_in, parent_in, origin_in, queue_in, Sparse};
ghost use Rattle.table.specs.Internal.{Queues};

// Its entries are the first `tail` words of scratch.
#[derive(Drop)]
pub(super) struct Queue<'a> {
    pub(super) scratch: &'a mut [u32],
    pub(super) buckets: usize,
    pub(super) tail: usize,
    ghost sparse: { Sparse buckets scratch.now tail },
}

impl<'a> Queue<'a> {
    // No bucket is queued. What scratch held does not matter.
    pub(super) fn new(scratch: &'a mut [u32], buckets: usize) -> Queue<'a>
        requires { (2 * buckets ≤ length scratch.old) × (buckets ≤ 65536) }
        ensures same_reference { result.scratch.ghost_name ≡ scratch.entry.ghost_name }
        ensures empty { (result.buckets ≡ buckets) × (result.tail ≡ 0) }
    {
        Queue {
            scratch,
            buckets,
            tail: 0,
        }
    }

    // Whether b stands in the queue.
    pub(super) fn is_marked(&self, b: usize) -> bool
        requires { b < self.now.buckets }
        ensures { (roots : ℕ) → result ≡ marked_in b (queue_in self.now.buckets self.now.scratch.now roots self.now.tail) }
    {
        let i = self.scratch[self.buckets + b] as usize / 4;
        i < self.tail && self.scratch[i] as usize % 65536 == b
    }

    // Puts b at the tail and marks it, as reached from cell k of the bucket of entry h.
    pub(super) fn push(&mut self, b: usize, h: usize, k: usize)
        requires in_bounds { (b < self.old.buckets) × (h ≤ self.old.tail - 1) × (k < 4) }
        requires unmarked { marked_in b (queue_in self.old.buckets self.old.scratch.now 0 self.old.tail) ≡ false }
        ensures same_reference { self.new.scratch.ghost_name ≡ self.old.scratch.ghost_name }
        ensures same_buckets { self.new.buckets ≡ self.old.buckets }
        ensures grows { self.new.tail ≡ self.old.tail + 1 }
        ensures queued { Queues self.old.buckets b h k self.old.scratch.now self.old.tail self.new.scratch.now }
    {
        self.scratch[self.tail] = (b + 65536 * h) as u32;
        self.scratch[self.buckets + b] = (4 * self.tail + k) as u32;
        self.tail += 1;
    }

    // The bucket of entry h.
    pub(super) fn bucket_of(&self, h: usize) -> usize
        requires { h < self.now.tail }
        ensures { (result < self.now.buckets) × (result ≡ bucket_in self.now.scratch.now h) }
    {
        self.scratch[h] as usize % 65536
    }

    // The entry that entry i was reached from, 0 where it is a root.
    pub(super) fn parent_of(&self, i: usize) -> usize
        requires { i < self.now.tail }
        ensures { (result ≤ i - 1) × (result ≡ parent_in self.now.scratch.now i) }
    {
        self.scratch[i] as usize / 65536
    }

    // The cell that entry i was reached from.
    pub(super) fn origin_of(&self, i: usize) -> usize
        requires { i < self.now.tail }
        ensures { (result < 4 * self.now.buckets) × (result ≡ origin_in self.now.buckets self.now.scratch.now i) }
    {
        let place = self.scratch[self.buckets + self.bucket_of(i)] as usize % 4;
        4 * self.bucket_of(self.parent_of(i)) + place
    }
}
