// What is promised of the engine: the three demands and the requests' own promises as theorems, and the worked figures (docs/PROMISES.md).
// They follow from the contract of `settle` and from the definitions that it names. There is no code here: specs/ says what is promised,
// proofs/ why it holds.
#![tactic(auto)]
