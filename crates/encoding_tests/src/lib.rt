// Tests of the Encoding at its edges, by its public calls.
#![tactic(auto)]

#[cfg(test)]
mod drawing;
#[cfg(test)]
mod maxima;
#[cfg(test)]
mod numbers;
#[cfg(test)]
mod paths;
#[cfg(test)]
mod plans;
#[cfg(test)]
mod setting;
