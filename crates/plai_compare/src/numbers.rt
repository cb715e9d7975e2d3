ghost use Rattle.std.specs.Prelude.{◌<◌};

/// Numbers of a linear congruence, each from the one before: they look arbitrary and are always the same.
#[derive(Drop)]
pub struct Numbers {
    last: u64,
}

impl Numbers {
    /// The numbers from the first on.
    pub fn new(first: u64) -> Numbers {
        Numbers { last: first }
    }

    /// The next number, whose low bits, which repeat soon, are left out.
    fn next(&mut self) -> u64 {
        self.last = self
            .last
            .wrapping_mul(6364136223846793005)
            .wrapping_add(1442695040888963407);
        self.last >> 33
    }

    /// A number below the limit.
    pub fn below(&mut self, limit: u32) -> u32
        requires { 0 < limit }
        ensures { result < limit }
    {
        (self.next() % u64::from(limit)) as u32
    }

    /// An index of so many items.
    pub fn index(&mut self, count: usize) -> usize
        requires { 0 < count }
        ensures { result < count }
    {
        self.next() as usize % count
    }
}
