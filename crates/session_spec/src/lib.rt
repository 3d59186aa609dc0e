// What a session file is, defined in specs/; that a written one is read back is proved in proofs/: theory only.
// What a session prints: definitions alone, in specs/.
#![tactic(auto)]
