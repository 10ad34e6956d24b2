// Laws of the doubles in a programme: no NaN and no infinite element after any list of steps, and no element −0.0 after a build. No code.
#![tactic(auto)]
