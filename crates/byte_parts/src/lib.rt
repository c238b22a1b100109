// Bytes of texts and tables: where one stands, words, numbers, fields, strings, parts and spans; and what every refusal tells.
#![tactic(auto)]

pub mod fields;
pub mod find;
pub mod number;
pub mod part;
pub mod refusal;
pub mod span;
pub mod words;
