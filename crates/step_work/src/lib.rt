// Laws of the loops that write the intervals of a step into its work run.
#![tactic(auto)]
