//! Tests of orders, hierarchies and their distances: on small graphs, and beside plain searches by every order of contraction
//! on small random graphs and on large graphs of odd shapes.
#![tactic(auto)]

#[cfg(test)]
mod distances;
#[cfg(test)]
mod from_one;
#[cfg(test)]
mod graphs;
#[cfg(test)]
mod optima;
#[cfg(test)]
mod orders;
#[cfg(test)]
mod plain_searches;
