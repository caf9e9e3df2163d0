// The second calculation of a month. It shares no code with the library: plain loops over plain numbers, and every answer worked out
// anew from the calls that were accepted.
pub mod book;
pub mod days;
pub mod file;
pub mod owed;
mod peaks;
mod soundness;
mod statements;
pub mod taking;
pub mod written;
