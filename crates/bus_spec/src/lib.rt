// What bus prints: definitions, in specs/, and what the printed totals bound, in proofs/.
#![tactic(auto)]
