// Reads a request file, record by record, from lent bytes.
#![tactic(auto)]

pub mod fault;
pub mod position;
pub mod reader;
pub mod record;
