/// One entry of the history. No value of it is made: clauses alone speak of it.
pub struct Entry<E, R> {
    /// The number that the pass stepped with.
    pub number: u32,
    pub event: E,
    pub reply: R,
}
