use plai_base::Mask;

/// What a builtin does to a state. Arguments of the literal are numbered from 1; the mask of `Havoc` has slot
/// `i - 1` for argument `i`.
#[derive(Clone, Copy, Debug, PartialEq, Eq)]
pub enum Action {
    /// There is no next state.
    Fail,
    /// The two arguments are unified.
    Unify(u32, u32),
    /// The two arguments are identical.
    Same(u32, u32),
    /// The argument becomes ground.
    Ground(u32),
    /// The argument becomes an integer.
    BindInt(u32),
    /// The argument is a variable.
    Var(u32),
    /// The argument is no variable.
    Nonvar(u32),
    /// The arguments of the mask may become anything.
    Havoc(Mask),
}
