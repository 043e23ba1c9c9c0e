ghost use Rattle.std.specs.Prelude.{◌≤◌, vec_len, vec_capacity};

pub mod absorbing;

/// What a program needs to keep of its input, a model and what follows it: no more than the largest model with the longest
/// schedule behind it and one byte, and how long the input is.
#[derive(Drop)]
pub struct Input {
    kept: Vec<u8>,
    // how long the input is, and not how much of it is kept
    total: usize,
    ghost few: { vec_len kept ≤ 51675 },
}
