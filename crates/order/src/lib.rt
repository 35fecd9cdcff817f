// What is proved of the rules, in specs/: they keep a nucleus consistent, nothing enters ready except at the back, and every ready thread's turn comes. No code.
#![tactic(auto)]
