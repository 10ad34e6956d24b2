// Laws of the columns, whatever the order of a file's edges: they are the classes of edges that plain joints join, so two files that differ in that
// order alone have the same columns but for their numbers, mass rows at the same links, and programmes that differ in those numbers alone. No code.
#![tactic(auto)]
