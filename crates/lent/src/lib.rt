// The calls on lent rows are those of the book: what they promise, and demand 3 said of them. There is no code here.
#![tactic(auto)]
