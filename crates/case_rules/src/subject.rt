/// What a `switch` is over.
#[derive(Clone, Copy, Debug, PartialEq, Eq)]
pub enum Subject {
    /// Int
    Numbers,
    /// Bool
    Truths,
    /// String
    Texts,
    /// An enum: its declaration, and the number of its cases.
    Cases(u32, u32),
}
