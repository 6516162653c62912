// The generator: the value, branch and move rules (`rules`). What they emit is defined in specs/Gen.
#![tactic(auto)]

pub mod rules;
