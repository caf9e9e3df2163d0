// Months, calls and files, made from numbers that look drawn at random and are the same on every run.
pub mod brought;
pub mod calls;
pub mod dice;
pub mod files;
pub mod months;
