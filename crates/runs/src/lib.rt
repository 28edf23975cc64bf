// What lists of calls come to, and the law of the book that holds over every list of them.
#![tactic(auto)]
