// Who started whom, in specs/: walks from parent to parent, and families that end together, over any nucleus. No code.
#![tactic(auto)]
