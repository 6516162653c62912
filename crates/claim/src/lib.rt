// Demand 3: what is claimed of compiled words and a run of them, and the theorem. Definitions and laws alone, no code.
#![tactic(auto)]
