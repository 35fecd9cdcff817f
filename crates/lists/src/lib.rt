// Lists of places and tests over places: the words that lines and rules share, and their laws, in specs/. No code.
#![tactic(auto)]
