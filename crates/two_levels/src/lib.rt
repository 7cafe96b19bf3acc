// Two whole runs, at level 1 and at level 2 (02, request 10): a theorem, without code.
#![tactic(auto)]
