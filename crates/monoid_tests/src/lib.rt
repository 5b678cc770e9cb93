// Tests of the counting layer, by its public calls.
#![tactic(auto)]

#[cfg(test)]
mod combining;
#[cfg(test)]
mod reducing;
#[cfg(test)]
mod tags;
