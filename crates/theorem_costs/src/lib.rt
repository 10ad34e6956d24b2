// Laws of a step's costs: what flow order is, that the costs of columns are summed in it, what another order would change, and that the order of a file's
// edges changes the cost of a closed ring alone. No code.
#![tactic(auto)]
