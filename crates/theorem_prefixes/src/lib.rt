// Laws of long files: the first bytes of a network file and of a step file decide the answer. No code.
#![tactic(auto)]
