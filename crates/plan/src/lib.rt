// A clause as a plan of steps (`specs/Plan.antt`, `specs/Folds.antt`): that the plan is the clause. There
// is no code here.
#![tactic(auto)]
