/// What a bucket has to keep of its past.
#[derive(Clone, Copy)]
pub struct State {
    /// Tokens of the one-time burst that are left.
    pub burst: u64,
    /// The balance right after the newest need that passed, in tokens times nanoseconds of refill time.
    /// Negative where a need beyond the size left a debt.
    pub balance: i128,
    /// The moment of that need, in nanoseconds; at first that of the start.
    pub moment: u64,
}

/// All that a bucket keeps, its rate too.
#[derive(Clone, Copy, Drop)]
pub struct BucketParts {
    /// How many tokens it holds, and in how many nanoseconds so many flow in.
    pub size: u64,
    pub refill: u64,
    /// Tokens of the one-time burst that are left.
    pub burst: u64,
    /// What a full balance has more than this one, in tokens times nanoseconds of refill time.
    pub owed: u128,
    /// The moment of the newest need that passed, in nanoseconds; at first that of the start.
    pub moment: u64,
}
