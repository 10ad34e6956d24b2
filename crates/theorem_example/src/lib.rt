// The worked examples of docs/DEMAND-3.md, sums of factors, virtual storages whose volume is out of its range, edges' refusals and rows' makers, computed from the definitions. No code.
#![tactic(auto)]
