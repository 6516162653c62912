// The samples of document 01, computed from the definitions: no code.
#![tactic(auto)]
