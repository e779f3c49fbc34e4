//! Tests of the public calls of `serve_command`, a file for each part of it. They stand apart from it so that it is not proved twice.
#![tactic(auto)]

#[cfg(test)]
mod accepting;
#[cfg(test)]
mod calling;
#[cfg(test)]
mod holds;
#[cfg(test)]
mod ordering;
#[cfg(test)]
mod printed;
#[cfg(test)]
mod serving;
