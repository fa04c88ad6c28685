//! Tests of request lines and reply lines: which call a line asks of a program, where the input is cut, the lines of a run by
//! their places, and the line of an entry. There is no code here but tests.
#![tactic(auto)]

#[cfg(test)]
mod places;
#[cfg(test)]
mod programs;
#[cfg(test)]
mod replies;
#[cfg(test)]
mod requests;
