// Laws only, in specs/ and proofs/: arithmetic over ℤ and ℕ by computing with polynomials, orders by certificates, powers of two, absolute values.
#![tactic(auto)]
