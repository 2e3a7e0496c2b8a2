// The demands: what was promised, as predicates over any engine in specs/, and the proofs that this
// engine meets them in proofs/. There is no code here.
#![tactic(auto)]
