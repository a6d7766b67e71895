// What the lent tables hold, entry by entry, and the laws by which the code meets the definitions: definitions and laws alone.
#![tactic(auto)]
