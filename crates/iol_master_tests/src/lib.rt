//! Masters with their ports, desks and seats, over the simulated wire and over wires
//! of which nothing is promised: threads of clients and workers, as tests.
//!
//! A test makes its wires, and hands them to functions that are generic over them and open the
//! master or the line: what is asked of a master over a known wire takes the prover longer.
//!
//! Most tests are tables of steps: of calls of a line's port under its lock and turns between them
//! (`scripts`), and of what clients do at the desks of a master (`visits`). A stage of a test
//! answers whether all of its facts hold, and `calls::check` asserts that. The prover's work grows
//! with the square of a function's branches and borrows. An assertion in place is a branch, which
//! has its text and doesn't return.
#![tactic(auto)]

#[cfg(test)]
mod calls;
#[cfg(test)]
mod desks;
#[cfg(test)]
mod left;
#[cfg(test)]
mod lines;
#[cfg(test)]
mod locks;
#[cfg(test)]
mod masters;
#[cfg(test)]
mod opening;
#[cfg(test)]
mod scripts;
#[cfg(test)]
mod seats;
#[cfg(test)]
mod served;
#[cfg(test)]
mod sizes;
#[cfg(test)]
mod slow;
#[cfg(test)]
mod stored_lines;
#[cfg(test)]
mod stored_masters;
#[cfg(test)]
mod units;
#[cfg(test)]
mod visits;
#[cfg(test)]
mod wide;
