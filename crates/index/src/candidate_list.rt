// The candidates of an entry, in order.
ghost use Rattle.std.specs.Prelude.{◌≡◌, ◌≤◌, take};

// The first `count` buckets are the candidates; the others are 0.
#[derive(Clone, Copy)]
pub struct Candidates {
    pub count: usize,
    pub buckets: [u32; 4],
    pub ghost few: { count ≤ 4 },
}

impl Candidates {
    pub fn as_slice(&self) -> &[u32]
        ensures { result.now ≡ take self.now.count self.now.buckets }
    {
        &self.buckets[..self.count]
    }
}
