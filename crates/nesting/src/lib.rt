// Whether an order of cutting stands: document 02, request 2.14. The answer of the code is `Option<u64>`: none if the order stands, or the first
// position, counted from 0, whose loop has a later listed loop inside it. What it is, is defined in specs/CutOrder.antt.

#![tactic(auto)]
