// Numbers as text (`numeral`, `decimal`), the fields of a line (`fields`) and a byte's place (`scan`).
#![tactic(auto)]

pub mod decimal;
pub mod fields;
pub mod numeral;
pub mod scan;
