/// Which of the asked shards answers next.
#[derive(Clone, Copy, Debug, PartialEq, Eq)]
pub enum Arrive {
    /// The first by name.
    Name,
    /// The next after the last that answered, by name and in a cycle, which begins at the first.
    Turns,
    /// One that is drawn, by a generator whose state begins with this number.
    Mix(u64),
}
