// The theorems about the book: demands 1 and 3 of the treasurer's, over the definitions of `book`, and the table of refusal numbers in words. There is no code here.
#![tactic(auto)]
