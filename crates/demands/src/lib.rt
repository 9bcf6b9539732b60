// What is promised of the orders, as theorems over the definitions that the calls are proved to meet. There is no code
// here.
#![tactic(auto)]
