#![tactic(auto)]
// Laws of words, nodes, names and the chart that no proof of a function needs: proofs/ states and proves them. Nothing rests on this crate. There is no code.
