// Examples of what the programs print, in both formats: answers, and the order in which refusals are looked for; and what
// the calls leave in their outputs.
#![tactic(auto)]

#[cfg(test)]
mod calls;
#[cfg(test)]
mod programs;
