// Laws on doubles, cited by the proofs of the other crates. No code.
#![tactic(auto)]
