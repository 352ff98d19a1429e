// The chart law and the grounds for probation, over any charts and limits. No function is here.

#![tactic(auto)]
