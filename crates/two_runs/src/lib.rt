// Demand 3, the theorem about two whole runs: no code. TwoRuns and WholeRuns of specs/meaning say it,
// proofs/WholeRuns has it, and proofs/RunsMet has two runs that meet its premises.
#![tactic(auto)]
