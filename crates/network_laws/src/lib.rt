// Laws of the network file: the definition's readers are the checks with direct reads, and what a checked file holds.
#![tactic(auto)]
