// Draws of the generator.
ghost use Rattle.std.specs.Prelude.{◌≡◌, ◌<◌, ◌*◌, ◌^◌};
ghost use Rattle.plai_make.specs.Draws.{following, state_at, chosen};

// The state behind this one.
pub(crate) fn following(state: u32) -> u32
    requires { state < 2 ^ 31 }
    ensures value { result ≡ following state }
    ensures few { result < 2 ^ 31 }
{
    ((state as u64 * 1_103_515_245 + 12_345) % 2_147_483_648) as u32
}

// The number below the count that a state gives.
pub(crate) fn chosen(state: u32, count: u32) -> u32
    requires { 0 < count }
    ensures { result ≡ chosen state count }
{
    state / 65_536 % count
}

// The state behind twice as many draws as the count says.
pub(crate) fn behind_twice(count: u32) -> u32
    requires { count < 2 ^ 31 }
    ensures value { result ≡ state_at count (2 * count) }
    ensures few { result < 2 ^ 31 }
{
    let mut state = count;
    for _ in 0..count {
        let next = following(state);
        state = following(next);
    }
    state
}
