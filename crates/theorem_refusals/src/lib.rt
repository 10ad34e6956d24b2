// Laws of the numbers with which the calls refuse. No code.
#![tactic(auto)]
