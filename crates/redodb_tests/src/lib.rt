//! Tests of what no program can be asked and no contract says: of names and stamps, of devices that fail, of a
//! conversation in memory, and of the board and its gates: sessions on threads of their own, and every order of the
//! steps of small plans.
#![tactic(auto)]

#[cfg(test)]
mod devices;
#[cfg(test)]
mod gates;
#[cfg(test)]
mod histories;
#[cfg(test)]
mod names;
#[cfg(test)]
mod order;
#[cfg(test)]
mod outcomes;
#[cfg(test)]
mod plans;
#[cfg(test)]
mod runs;
#[cfg(test)]
mod schedules;
#[cfg(test)]
mod seats;
#[cfg(test)]
mod served;
#[cfg(test)]
mod stamps;
