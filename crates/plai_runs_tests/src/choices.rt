// A small generator of choices.

/// Numbers that look random, the same for a seed each time.
#[derive(Drop)]
pub(crate) struct Choices {
    state: u64,
}

impl Choices {
    pub(crate) fn new(seed: u64) -> Choices {
        Choices { state: seed }
    }

    /// The next number.
    pub(crate) fn next(&mut self) -> u64 {
        let state = self.state.wrapping_mul(1_103_515_245).wrapping_add(12_345);
        self.state = state % 2_147_483_648;
        self.state / 65_536
    }
}
