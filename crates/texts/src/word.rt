// The words of which printed lines are made.

#[derive(Clone, Copy, PartialEq, Eq, Debug)]
pub enum Word {
    // in plain decimal digits
    Number(u64),
    // `none`, in the place of a quote
    NoQuote,
    // `refused`
    Refused,
    /// `same`: two sheets offer the same bargains
    Same,
    /// `first`: the first of two sheets
    First,
    /// `second`: the second of two sheets
    Second,
}
