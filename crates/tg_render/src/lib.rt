//! Texts as lists of the grammar's tokens. One function writes their bytes: a single space stands between two tokens, but
//! none behind `( [ { ! ?` or LF and none before `) ] } , ; .`. The functions without code carry the laws: the text
//! of proper tokens has these tokens again, with no condition on what stands beside what.
#![tactic(auto)]

mod laws;
mod putting;
#[cfg(test)]
mod tests;

pub use laws::{lexed_back, proper_tokens};
pub use putting::{end_line, put_number, put_token};
