// Demands 2 and 3 over what the public operations promise, in specs/: every turn comes in a chain of replies; a terminal's whole life, and a board's, in which the power fails at any byte; and the counted cases as one table. No code.
#![tactic(auto)]
