// What a call returns where it is not refused.
pub(crate) const DONE: u32 = 0;

// There is no quote; no refusal has this number.
pub(crate) const NO_QUOTE: u32 = 255;
