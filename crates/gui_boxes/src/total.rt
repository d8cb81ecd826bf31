//! How large children are together.
ghost use Rattle.std.specs.Prelude.{◌≤◌, ◌*◌};

/// How large children are together so far, and how many they are.
#[derive(Clone, Copy)]
pub struct Total {
    pub size: u32,
    pub count: u32,
    ghost size_fits: { size ≤ 70000 * count },
    ghost count_fits: { count ≤ 4000 },
}
