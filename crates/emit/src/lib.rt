// What the generator's rules are made of: the state and its registers (`state`), words (`build`, `word`), constant slots (`consts`), the leaves of an
// expression (`leaf`), branches and patching (`jump`). None of them calls a rule. What a refused one leaves in the lent buffers is not said here, but in
// `compile` (docs/OPEN.md).
#![tactic(auto)]

mod build;
mod consts;
pub mod jump;
pub mod leaf;
pub mod state;
pub mod word;
