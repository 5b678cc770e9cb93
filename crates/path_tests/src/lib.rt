// Tests of an open path by its public calls.
#![tactic(auto)]

#[cfg(test)]
mod drawing;
#[cfg(test)]
mod sheets;
#[cfg(test)]
mod space;
#[cfg(test)]
mod table;
