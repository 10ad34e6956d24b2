// Laws of lists, cited by the proofs of the other crates. No code.
#![tactic(auto)]
