// The marked cases of dimension 4 and of the requests, each by computation from the definitions of paper. There is no code here.

#![tactic(auto)]
