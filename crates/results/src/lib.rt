// What follows from the definitions of base, maps, worksheet and jutetrowel: statements in specs/,
// their proofs in rooms. No code.
#![tactic(auto)]
